// Lines of an input that comes in pieces.
ghost use Rattle.std.specs.Prelude.{◌≤◌, length, take};
ghost use Rattle.replies.specs.Lines.{room, Says};
ghost use Rattle.questions.specs.Feeding.{kept, at_end};
ghost use Rattle.questions.specs.Promises.{line_of, Holds, Regular, Started, FedPiece};
ghost use Rattle.questions.specs.Parts.{Keeps, Ready, TakesByte};

use crate::answers::answer;
use crate::{Fed, KEPT, Progress, ROOM, State};

// The state before any input.
pub fn start() -> State
    ensures { Started result }
{
    State {
        bytes: [0u8; KEPT],
        count: 0,
    }
}

// Keeps a byte of a line, if it has a place; how many are kept then.
fn keep(byte: u8, line: &mut [u8], count: usize) -> usize
    requires { Keeps line.old count }
    ensures { Holds line.new result (kept (take count line.old) byte) }
{
    if count < KEPT {
        line[count] = byte;
        return count + 1;
    }
    count
}

// Takes a byte of the input: at a line's end the answer goes to `out` from `at` on.
fn take_byte(byte: u8, line: &mut [u8], count: usize, out: &mut [u8], at: usize) -> Progress
    requires { Ready line.old count out.old at }
    ensures { TakesByte (take count line.old) byte out.old at result line.new out.new }
{
    if byte == b'\n' {
        let end = answer(&line[..count], &mut out[at..]);
        return Progress {
            count: 0,
            written: at + end,
        };
    }
    Progress {
        count: keep(byte, line, count),
        written: at,
    }
}

// Takes bytes of a piece as long as `out` has room for the longest answer, and puts the answers to the lines that end in them at its start.
pub fn feed(state: State, piece: &[u8], out: &mut [u8]) -> Fed
    requires { Regular state }
    ensures { FedPiece (line_of state) piece.now out.old result out.new }
{
    let mut line = state.bytes;
    let mut count = state.count;
    let mut used = 0;
    let mut written = 0;
    for byte in piece {
        if out.len() - written < ROOM {
            break;
        }
        let taken = take_byte(*byte, &mut line, count, out, written);
        count = taken.count;
        written = taken.written;
        used += 1;
    }
    let state = State { bytes: line, count };
    Fed {
        state,
        used,
        written,
    }
}

// Puts the answer to a last line that no newline ends, if it has a byte, at the start of `out`; how many bytes it has.
pub fn finish(state: State, out: &mut [u8]) -> usize
    requires { Regular state × (room ≤ length out.old) }
    ensures { Says (at_end (line_of state)) out.old out.new result }
{
    let line = state.bytes;
    let count = state.count;
    if count == 0 {
        return 0;
    }
    answer(&line[..count], out)
}
