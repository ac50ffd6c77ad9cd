//! The filter: which functions may move to a server, and if one may not, along which path the reason lies.
#![tactic(auto)]

mod freeing;
mod judging;
mod reasons;
mod rules;

pub use freeing::free_functions;
pub use judging::judge;
pub use rules::{Rule, Verdict};
