//! Modules that were accepted: a machine runs each of their instructions, and their first memory can be made.
#![tactic(auto)]

mod sound;

pub use sound::Sound;
