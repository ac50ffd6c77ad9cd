//! What is asked of a module: widths, types of values, named types, externals, words, what an instruction names, and whether it is formed.
#![tactic(auto)]

mod declared;
mod external;
mod instructions;
mod named;
mod same_operands;
mod same_types;
mod scalar;
mod widths;

pub use declared::{begins_with, is_declared};
pub use external::{External, declared_external, external_named, external_of, is_external};
pub use instructions::{Labels, Operands, Types, is_phi, is_terminator};
pub use named::resolved;
pub use same_operands::{same_constant, same_operand};
pub use same_types::same_type;
pub use scalar::{Scalar, agree, is_of, is_result, is_scalar, is_void, same_result, takes};
pub use widths::{is_alignment, is_width};
