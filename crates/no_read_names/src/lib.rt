//! The names that a text's scan finds are those that its forms define.
#![tactic(auto)]

mod laws;

pub use laws::names_are_the_modules;
