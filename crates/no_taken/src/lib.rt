//! The functions whose address a module takes.
#![tactic(auto)]

mod marks;

pub use marks::taken;
