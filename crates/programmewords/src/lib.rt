// The word that asks about the week's programme.
#![tactic(auto)]

mod programmes;

pub use programmes::programme;
