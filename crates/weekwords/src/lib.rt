// The word that asks which limits a week's entries break.
#![tactic(auto)]

mod entries;
mod words;

pub use words::week_faults;
