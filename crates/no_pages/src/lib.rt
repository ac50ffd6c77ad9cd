//! A program's memory by pages.
#![tactic(auto)]

mod general;
mod held;
mod judge;
mod make;
mod memory;
mod part;
mod ranges;
mod slot;
mod table;
mod zero;

pub use held::HeldPages;
pub use slot::{Bytes, Kind, Slot};
pub use table::PageTable;
pub use zero::is_zero;
