// What is so after each call, as lines of a letter and numbers: the answer, the call, the link, and the flow that it is about. RULES 26.10: a reader keeps
// the window by these lines alone.
#![tactic(auto)]

mod asks;
mod credits;
mod lends;
mod plans;
mod resets;
mod steps;
mod ticks;
mod told;
mod written;

pub use plans::write_plan;
pub use steps::step;
pub use told::write_burst;

// The bytes that the lines of a call, or of a plan, may take.
pub const ROOM: usize = 2048;

// A call.
#[derive(Clone, Copy)]
pub enum Call {
    // A request has a word.
    Request(u32),
    // One of the first 16 words of a burst, and one after them.
    Word(u32),
    Past(u32),
    // A credit has a flow and a position.
    Credit(usize, usize),
    Tick,
    // A lend has a mask.
    Lend(u16),
    Reset,
}

// The window after a call, and the place after its lines.
#[derive(Clone, Copy)]
pub struct Reached {
    pub window: window::Window,
    pub end: usize,
}
