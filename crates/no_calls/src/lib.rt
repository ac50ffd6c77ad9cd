//! The call graph of a module: which functions a function reaches, and along which path.
#![tactic(auto)]

mod found;
mod graph;
mod nearest;
mod reached;
mod rows;
mod sets;
mod shapes;
mod spread;

pub use graph::Graph;
