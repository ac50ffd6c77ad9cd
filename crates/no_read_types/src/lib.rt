//! Type definitions of the text profile: lifted out of the tokens, and numbered so that each refers to lower numbers.
#![tactic(auto)]

mod circle;
mod definition;
mod flags;
mod graph;
mod lifted;
mod order;
mod queue;
mod ready;
mod watchers;

pub use definition::{Definition, Lifting};
pub use lifted::{Lifted, definitions, definitions_are_exact};
