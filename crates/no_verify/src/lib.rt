//! The verifier: whether a module is one that a machine may run, or the first thing wrong with it.
#![tactic(auto)]

mod fault;
mod judge;
mod unassigned;
mod verdict;

pub use fault::{VerifyError, VerifyFault, VerifyKind};
pub use no_sound::Sound;
pub use verdict::verify;
