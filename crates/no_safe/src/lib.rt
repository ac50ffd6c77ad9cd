//! The laws that what the verifier accepts as a source is safe to run, and that its run finishes. No code runs here: each
//! function's contract is a law, and its body is empty.
#![tactic(auto)]

mod laws;

pub use laws::{accepted_sources_are_safe, accepted_sources_finish};
