//! The first memory of an accepted module: where its constants and globals stand, and which bytes they begin with.
#![tactic(auto)]

mod bytes;
mod emit;
mod loading;
mod making;
mod placement;

pub use loading::load;
pub use making::image;
pub use placement::{addresses, regions};
