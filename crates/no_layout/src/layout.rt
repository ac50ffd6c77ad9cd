/// What a data layout string states (LLVM Language Reference, "Data Layout").
///
/// The width of pointers and all alignments are in bits, as the string has them.
#[derive(Clone, Copy, Debug, PartialEq, Eq)]
pub struct Layout {
    /// Whether the most significant byte has the lowest address.
    pub big: bool,
    /// The width of a pointer: 32 or 64.
    pub pointer: u8,
    /// The alignment of a pointer.
    pub pointer_align: u32,
    /// The alignments of i1, i8, i16, i32 and i64.
    pub int_align: [u32; 5],
}
