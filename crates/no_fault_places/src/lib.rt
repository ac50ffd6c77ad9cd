//! Where a text is refused, the fault stands at the first token with which no text goes on.
//!
//! No function here does anything: each carries a law as its clause.
#![tactic(auto)]

mod laws;

pub use laws::{faults_of_forms_are_placed, faults_of_texts_are_placed};
