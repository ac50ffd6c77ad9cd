//! The faults of a module, kind by kind, each with its first place. Types of operands and unassigned registers are judged elsewhere.
#![tactic(auto)]

mod ending;
mod entry;
mod finding;
mod large;
mod marks;
mod numbers;
mod parts;
mod phis;
mod room;
mod twice;
mod unknown;

pub use ending::ending_fault_in;
pub use entry::entry_fault;
pub use large::large_fault;
pub use marks::marks_fault;
pub use phis::phis_fault;
pub use room::room_fault;
pub use twice::twice_fault;
pub use unknown::unknown_fault;
