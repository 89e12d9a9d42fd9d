// The show editor's questions but for reading and writing: input is fed in pieces of any sizes, and the answers to the lines that end in each are handed back.
#![tactic(auto)]

mod answers;
mod input;
mod keywords;

pub use input::{feed, finish, start};

// The most bytes of a line that is a question.
pub const LONGEST: usize = 4000;
// The bytes of a line that are kept until it ends: with one more than a question has it is too long, whatever follows.
pub const KEPT: usize = 4001;
// Room for the longest answer.
pub const ROOM: usize = 16384;

// The line that has begun: its first bytes, as many as `count` says.
#[derive(Clone, Copy)]
pub struct State {
    pub bytes: [u8; KEPT],
    pub count: usize,
}

// What feeding a piece comes to.
#[derive(Clone, Copy)]
pub struct Fed {
    pub state: State,
    // bytes of the piece that were taken
    pub used: usize,
    // bytes that are to be written
    pub written: usize,
}

// What one byte comes to: how many bytes of its line are kept then, and where the bytes that are to be written end.
#[derive(Clone, Copy)]
pub(crate) struct Progress {
    pub count: usize,
    pub written: usize,
}
