//! What the reader's grammar makes is formed.
#![tactic(auto)]

mod laws;

pub use laws::what_is_read_is_formed;
