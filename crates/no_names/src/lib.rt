//! Names in texts of other formats: spelled as the printer spells them, and read back from that spelling alone.
#![tactic(auto)]

mod spelled;

pub use spelled::{name_by, spelled_name};
