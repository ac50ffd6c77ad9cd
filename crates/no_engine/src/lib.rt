//! What runs a program slice by slice, as a job sees it, and the machine over all its pages as one that does.
#![tactic(auto)]

mod engine;
mod local;

pub use engine::{Engine, Slice};
pub use local::booted;
