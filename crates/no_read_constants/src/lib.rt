//! Constants of the text profile: numbers, strings, lists and addresses at a type.
#![tactic(auto)]

mod constants;
mod places;

pub use constants::{
    ConstHead, LeafHead, Shape, a_const, at_most_one_constant, constants_are_exact,
};
pub use places::{PlaceHead, a_place, begins_place, number_at, skip_flags, symbol, width_of};
