//! Profiles: what was counted inside each function of a program, what moving a function to a server would gain, which functions
//! are worth it, and the texts in which profiles are kept.
#![tactic(auto)]

mod fault;
mod gains;
mod profile;
mod reading;
mod selecting;
mod writing;

pub use fault::{ProfileError, ProfileFault, SelectError};
pub use gains::gain;
pub use profile::{Line, Profile, Rates};
pub use reading::read_profile;
pub use selecting::select;
pub use writing::profile_text;
