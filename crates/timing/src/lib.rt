// What the measuring of single calls needs beside a link: the clock, the call file taken apart, and what is printed.
#![tactic(auto)]

pub mod clock;
pub mod file;
pub mod input;
pub mod report;
