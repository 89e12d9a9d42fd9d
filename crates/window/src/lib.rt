// The window of a call: F, W, CP and the head frame; positions and frames going round; and one of two bytes.
#![tactic(auto)]

pub mod numbers; // one of two bytes, by a bound
pub mod positions; // positions and frames, going round

// The window of a call: F, W and CP, and the head frame.
#[derive(Clone, Copy)]
pub struct Window {
    pub slots: usize,
    pub frames: usize,
    pub current: usize,
    pub head: usize,
}
