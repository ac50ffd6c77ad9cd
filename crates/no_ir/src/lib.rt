//! The trees of the text profile: types, constants, instructions, functions and modules.
#![tactic(auto)]

mod constant;
mod duplicate;
mod ending;
mod function;
mod instruction;
mod memory;
mod names;
mod op_copy;
mod text;
mod types;

pub use constant::{Const, Place, Symbol};
pub use ending::{End, Trap};
pub use function::{Block, Function, GlobalVar, Module, Plan, Role};
pub use instruction::{BinOp, CastOp, Instr, Op, Operand, Pred};
pub use memory::NoMemory;
pub use names::Names;
pub use sqlite_items::{Boxed, Items as List};
pub use text::Text;
pub use types::Ty;

/// A list of bytes: a name, a text or the bytes of a constant.
pub type Bytes = List<u8>;
