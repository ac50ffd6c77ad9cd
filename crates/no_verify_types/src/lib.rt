//! The rule of types of a module, and the functions that a module may declare and use.
#![tactic(auto)]

mod addresses;
mod calls;
mod constants;
mod faults;
mod named;
mod operands;
mod paths;
mod place;
mod registers;
mod switches;
mod typing;
mod unknown;

pub use addresses::{has_address, is_intrinsic};
pub use calls::direct;
pub use constants::global_typed;
pub use faults::type_fault;
pub use named::module_names;
pub use place::FaultPlace;
pub use registers::result_of;
pub use unknown::external_fault;
