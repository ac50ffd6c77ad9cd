use no_code::{Cell, Code};
use no_semantics::Sound;

/// What stays the same while a program runs.
#[derive(Clone, Copy)]
pub struct Facts<'a> {
    pub sound: &'a Sound,
    /// The addresses of the globals.
    pub addresses: &'a [u32],
    pub code: &'a Code,
    /// The cells and the constants of the code.
    pub cells: &'a [Cell],
    pub constants: &'a [u64],
    /// For each function whether it is declared.
    pub declared: &'a [bool],
    /// The order and the width of pointers in the layout.
    pub big: bool,
    pub pointer: u8,
}
