// The word that asks which limits a plan breaks.
#![tactic(auto)]

mod flows;
mod header;
mod words;

pub use words::faults;
