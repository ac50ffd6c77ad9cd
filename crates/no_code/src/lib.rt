//! Decoded programs: one cell for each instruction, with numbers in place of names, types and constants.
#![tactic(auto)]

mod blocks;
mod building;
mod calls;
mod cells;
mod code;
mod constant;
mod control;
mod edges;
mod frame;
mod paths;
mod plain;
mod slot;

pub use building::decode;
pub use code::{Argument, Case, Cell, Code, Edge, Home, Kind, Move, Place, Step};
