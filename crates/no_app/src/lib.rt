//! The commands of the program, each a job over the outside world, and the top call.
#![tactic(auto)]

mod job;
mod loading;
mod outcome;
mod report;
mod telling;
mod top;
mod words;

pub use job::{JobEnd, local_job};
pub use loading::{Refused, load};
pub use outcome::{ModuleFault, Outcome, status};
pub use report::Report;
pub use top::command;
