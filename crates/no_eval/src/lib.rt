//! The arithmetic of the instructions: binary operators, comparisons and conversions on numbers of w bits.
#![tactic(auto)]

mod arithmetic;
mod bits;
mod comparison;
mod conversion;
mod division;
mod laws;
mod number;
mod shift;

pub use arithmetic::binary;
pub use comparison::compare;
pub use conversion::cast;
pub use laws::results_are_within;
pub use number::signed;
