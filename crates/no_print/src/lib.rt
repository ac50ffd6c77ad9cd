//! The one spelling of a module (docs/LANGUAGE.md, "Canonical text"), and that of a name by itself.
#![tactic(auto)]

mod constants;
mod functions;
mod names;
mod numbers;
mod operands;
mod operations;
mod output;
mod places;
mod printing;
mod scope;
mod types;
mod words;

pub use names::put_spelling;
pub use printing::print;
