//! Rules of the text profile over tokens: what each means, and how it is read.
#![tactic(auto)]

mod fault;
mod lists;
mod names;
mod numbers;
mod scope;
mod step;
mod types;

pub use fault::{Flaw, Stop, Stopped};
pub use lists::closes_list;
pub use names::{first_byte, inner, name_of, number_in, unescaped, unescaped_inner};
pub use numbers::{count_of, decimal, digits_of, integer_at, is_negative};
pub use scope::Scope;
pub use step::{fault_at, is_kind, is_sign, is_word, skip_sign, skip_word, spelled, syntax};
pub use types::{TypeHead, a_type, at_most_one_type, types_are_exact, word_type};
