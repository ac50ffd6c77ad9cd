//! What programs over memory mean: images, states, steps and runs, as definitions that the other crates cite.
#![tactic(auto)]

mod image;
mod indices;
mod laws;
mod places;
mod widths;

pub use image::Image;
pub use indices::{index_offset, part, place_address, symbol_address, with_first};
pub use laws::{a_run_is_one, a_run_splits, steps_compose};
pub use no_module::resolved;
pub use no_sound::Sound;
pub use places::has_place;
pub use widths::{bytes_of, narrowed, pointer_width, width, width_at};
