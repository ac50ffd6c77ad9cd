//! Reading a text's tokens as a module: what its names mean, and the faults.
#![tactic(auto)]

mod fault;
mod known;
mod reading;
mod typed;

pub use fault::{ReadError, ReadFault, read_fault};
pub use known::{Known, read_names};
pub use reading::{at_most_one_module, read_module};
