//! Where the globals of a module stand in memory and end, and whether they have room.
#![tactic(auto)]

mod ends;

pub use ends::{align_of, end_behind, end_of_all, have_room, is_kind};
