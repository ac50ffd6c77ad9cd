//! Functions: what stands before the blocks, the blocks, and both together behind `define`.
#![tactic(auto)]

mod blocks;
mod functions;
mod heads;

pub use blocks::{Piece, at_most_one_body, blocks_are_exact, body};
pub use functions::{Written, a_function};
pub use heads::{Head, a_head, heads_are_exact};
