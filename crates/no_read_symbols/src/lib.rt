//! The names of a text's globals and functions, found in its tokens before the forms are read.
#![tactic(auto)]

mod standing;
mod symbols;

pub use standing::{Bracket, Standing};
pub use symbols::{Symbols, symbol_names};
