// Input that comes in pieces.
ghost use Rattle.std.specs.Prelude.{◌≤◌, ◌++◌, length};
ghost use Rattle.replies.specs.Lines.{Says};
ghost use Rattle.showwords.specs.Links.{room};
ghost use Rattle.showinput.specs.Input.{answer_to, kept};
ghost use Rattle.showinput.specs.Promises.{input_of, Regular, Started, Stands};

use crate::answers::answer;
use crate::{KEPT, State};

// The state before any input.
pub fn start() -> State
    ensures { Started result }
{
    State {
        bytes: [0u8; KEPT],
        count: 0,
    }
}

// Takes a piece of the input: of the whole input the first bytes are kept.
pub fn feed(state: State, piece: &[u8]) -> State
    requires { Regular state }
    ensures { Stands result (kept (input_of state ++ piece.now)) }
{
    let count = state.count;
    let taken = piece.len().min(KEPT - count);
    let mut bytes = state.bytes;
    bytes[count..count + taken].copy_from_slice(&piece[..taken]);
    State {
        bytes,
        count: count + taken,
    }
}

// Puts the answer to the whole input at the start of `out`; how many bytes it has.
pub fn finish(state: State, out: &mut [u8]) -> usize
    requires { Regular state × (room ≤ length out.old) }
    ensures { Says (answer_to (input_of state)) out.old out.new result }
{
    let bytes = state.bytes;
    let count = state.count;
    answer(&bytes[..count], out)
}
