//! The registers and labels of a function while it is read: their numbers, and the names of what has none.
#![tactic(auto)]

mod counting;
mod locals;

pub use counting::the_counter_counts;
pub use locals::{
    Locals, a_block_label, a_definition, a_label, a_label_name, a_register, local_rules_are_exact,
    no_block_label, no_name,
};
