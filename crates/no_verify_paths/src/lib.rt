//! Paths through a function: whether each assigns a register before it is used.
#![tactic(auto)]

mod flow;
mod graph;
mod judge;
mod labels;
mod need;
mod operands;
mod parameters;
mod queue;
mod rows;
mod sets;
mod survey;
mod verdict;
mod words;

pub use verdict::assigned;
