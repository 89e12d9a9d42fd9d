// The words that ask about plans.
#![tactic(auto)]

mod plans;
mod reads;

pub use plans::{plan, room};
pub use reads::read;
