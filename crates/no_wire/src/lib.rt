//! The messages of device and server as frames: one spelling each, written and read in any pieces (`docs/FORMATS.md`, "Frames").
#![tactic(auto)]

mod decoder;
mod encoding;
mod fault;
mod filling;
mod kind;
mod laws;
mod msg;
mod numbers;
mod reading;
mod scan;

pub use decoder::{Decoder, FeedAnswer};
pub use encoding::encode;
pub use fault::WireFault;
pub use kind::Kind;
pub use laws::frames_are_exact;
pub use msg::Msg;
