//! The external functions of a program: what each does with memory, heap, input and output.
#![tactic(auto)]

mod answer;
mod arguments;
mod blocks;
mod calls;
mod clearing;
mod ends;
mod env;
mod filling;
mod moving;
mod numbers;
mod streams;
mod text;

pub use answer::LibAnswer;
pub use calls::external;
pub use env::{Env, Input};
