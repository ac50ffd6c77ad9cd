//! Instructions of the text profile, read exactly.
#![tactic(auto)]

mod calls;
mod heads;
mod instructions;

pub use heads::{Action, Giver, InstrHead};
pub use instructions::{an_instr, at_most_one_instruction, instructions_are_exact};
