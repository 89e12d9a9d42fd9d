// The question of `domeshow` but for reading and writing: input is fed in pieces of any sizes, and at its end the answer is handed back.
#![tactic(auto)]

mod answers;
mod pieces;

pub use pieces::{feed, finish, start};

// The most bytes of a question.
pub const LONGEST: usize = 4000;
// The bytes that are kept: with one more than a question and its newline have it is too long, whatever follows.
pub const KEPT: usize = 4002;
// Room for the longest answer.
pub const ROOM: usize = 51207;

// The input so far: its first bytes, as many as `count` says.
#[derive(Clone, Copy)]
pub struct State {
    pub bytes: [u8; KEPT],
    pub count: usize,
}
