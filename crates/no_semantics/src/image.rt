use no_ir::{Bytes, List};
use no_layout::Regions;

/// The first memory of a program.
#[derive(Debug, Drop)]
pub struct Image {
    /// The address of each global of the module, in their order.
    pub addresses: List<u32>,
    /// Where constants and globals end.
    pub regions: Regions,
    /// Addresses with the bytes that stand from there on at first; all others are 0.
    pub pieces: List<(u32, Bytes)>,
}
