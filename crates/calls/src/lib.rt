// Calls and their answers as bytes: call records are read, and a line is written for each answer.
#![tactic(auto)]

mod records;
mod render;

pub use records::read;
pub use render::{has_room, write, write_plan, write_refusal};

// The bytes of a call record.
pub const RECORD: usize = 5;
// The bytes of the longest line: a letter, a space, four digits and a newline.
pub const LONGEST_LINE: usize = 7;

// A call on a link.
#[derive(Clone, Copy, Debug, PartialEq, Eq)]
pub enum Call {
    // A request has a word.
    Request(u32),
    // A credit has a flow and a position.
    Credit(usize, usize),
    Tick,
}

// What a call is answered.
#[derive(Clone, Copy, Debug, PartialEq, Eq)]
pub enum Answer {
    // A request is granted: the word with its position as departure.
    Granted(u32),
    // A credit is taken.
    Accepted,
    // The flow that is booked at a tick's new position.
    Booked(u8),
    // No flow is booked there.
    Idle,
    // The current slot is lent to a flow.
    Lent(u8),
    // A reset is granted.
    Reset,
    // A call is refused, by its number.
    Refused(u8),
}
