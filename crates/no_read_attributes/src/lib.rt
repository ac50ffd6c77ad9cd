//! Attributes of functions, parameters and calls, and the words that are none.
#![tactic(auto)]

mod attribute;
mod marks;
mod symbols;
mod words;

pub use attribute::{
    Attribute, AttributeHead, alignment, attributes_are_exact, begins_attribute, skip_attributes,
    skip_bracketed, skipped_attributes_are_exact, string,
};
pub use marks::{Mark, attribute_marks};
pub use symbols::symbol_name;
pub use words::{is_attribute_word, is_left_out, is_node, is_one, is_record};
