// The program `domelink` but for reading and writing: input is fed in pieces of any sizes, and what is to be written after each is handed back.
#![tactic(auto)]

mod keeping;
mod plans;
mod records;

ghost use Rattle.program.specs.State.{stage_of, Regular};
ghost use Rattle.program.specs.Promises.{Started, FedPiece, Finished};

use calls::{LONGEST_LINE, RECORD};
use link::Link;

// The bytes of the longest plan: a header of 12 bytes and 16 entries of four.
pub const LONGEST_PLAN: usize = 76;

// The bytes of a plan or of a record that is not whole yet, and zeros after them.
#[derive(Clone, Copy)]
pub struct Kept {
    pub bytes: [u8; LONGEST_PLAN],
    pub count: usize,
}

// The program after some input.
#[derive(Clone, Copy)]
pub enum State {
    // Bytes of the plan are still to come: those that have come.
    Reading(Kept),
    // The plan was accepted, and records are played: the link, and the bytes of a record that is not whole yet.
    Playing(Link, Kept),
    // Nothing more is read.
    Ended,
}

// What feeding a piece comes to.
#[derive(Clone, Copy)]
pub struct Fed {
    pub state: State,
    // bytes of the piece that were taken
    pub used: usize,
    // bytes that are to be written
    pub written: usize,
}

// What a part of that comes to: the bytes that are to be written end at `written`.
#[derive(Clone, Copy)]
pub(crate) struct Progress {
    pub state: State,
    pub written: usize,
}

// The state before any input.
pub fn start() -> State
    ensures { Started result }
{
    State::Reading(keeping::none())
}

// Takes as much of a piece as `out` has room for, five bytes for each line of seven, and puts what is to be written at the start of `out`.
pub fn feed(state: State, piece: &[u8], out: &mut [u8]) -> Fed
    requires { Regular state }
    ensures { FedPiece (stage_of state) piece.now out.old result out.new }
{
    let used = piece.len().min(RECORD * (out.len() / LONGEST_LINE));
    let part = &piece[..used];
    let left = match state {
        State::Reading(kept) => plans::go_on(kept, part, out),
        State::Playing(link, kept) => records::go_on(link, kept, part, out),
        State::Ended => Progress { state, written: 0 },
    };
    Fed {
        state: left.state,
        used,
        written: left.written,
    }
}

// Puts what is to be written at the end of the input at the start of `out`; how many bytes it has.
pub fn finish(state: State, out: &mut [u8]) -> usize
    requires { Regular state }
    ensures { Finished (stage_of state) out.old result out.new }
{
    match state {
        State::Reading(_) => calls::write_plan(1, out, 0),
        State::Playing(link, kept) => records::last_line(link, kept, out),
        State::Ended => 0,
    }
}
