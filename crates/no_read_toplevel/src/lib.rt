//! What stands at the top of a text, and whole modules: globals, the top forms beside them, groups of attributes, and the module
//! that the forms give, read from the tokens that a text has beside its type definitions.
#![tactic(auto)]

mod entities;
mod globals;
mod groups;
mod laws;
mod modules;
mod tops;

pub use entities::top_forms_are_exact;
pub use globals::{TailHead, a_global, at_most_one_global, globals_are_exact};
pub use groups::Settings;
pub use laws::groups_are_written_out;
pub use modules::{a_module, modules_are_exact};
pub use tops::Top;
