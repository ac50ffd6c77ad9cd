//! Forms of instructions behind their first word: operands, types, labels, and what follows behind commas.
#![tactic(auto)]

mod ends;
mod flow;
mod laws;
mod lists;
mod memory;
mod operands;
mod simple;

pub use ends::{Ending, Listed, end_mark, with_end};
pub use flow::{br, phi, ret, switch};
pub use laws::forms_are_exact;
pub use memory::{AllocaEnd, address, alloca, load, store};
pub use operands::{Flags, an_operand, some_type};
pub use simple::{binary, cast_form, compare, freeze, select};
