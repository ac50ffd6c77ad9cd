//! The laws that programs never get stuck which have what the verifier finds, and that their runs finish. No code runs here: each function's contract is a law,
//! and its body is empty.
#![tactic(auto)]

mod finish;
mod progress;

pub use finish::runs_finish;
pub use progress::{runs_begin_in_states, runs_never_get_stuck};
