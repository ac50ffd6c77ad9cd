//! The words of operators, conversions and comparisons: what each is called, and what each word names.
#![tactic(auto)]

mod laws;
mod words;

pub use laws::words_name_what_has_them;
pub use words::{binary_named, binary_word, cast_named, cast_word, pred_named, pred_word};
