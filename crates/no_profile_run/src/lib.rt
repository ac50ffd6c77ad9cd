//! What a profile has of a run: how often each function was called, what was counted inside its calls, and how many pages
//! these touched, told row by row.
#![tactic(auto)]

mod lines;
mod tally;

pub use tally::Tally;
