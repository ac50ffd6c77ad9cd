ghost use Rattle.std.specs.Prelude.{◌≡◌, ◌+◌, ◌<◌, ◌≤◌, ◌↔◌, IsTrue, length, map, slice_get, take, true};
ghost use Rattle.no_layout.specs.Text.{is_formed};
ghost use Rattle.no_layout.specs.Sizes.{Fits, HasField, fields_of, measure_of, offset_in, offset_of, size_limit, type_align, type_size, type_stride, whole};
ghost use Rattle.no_layout.specs.Measured.{Agrees};

use crate::extent::{Extent, place_after, stride};
use crate::{Layout, Sizes};
use no_ir::Ty;

impl Layout {
    /// The size of a type in bytes.
    ///
    /// The sizes are those of the named types under this layout.
    pub fn size(&self, sizes: &Sizes, t: &Ty) -> u64
        requires formed { IsTrue (is_formed self.now) }
        requires fits { Fits self.now sizes.now t.now }
        ensures size { result ≡ type_size self.now sizes.now t.now }
        ensures small { result ≤ size_limit }
    {
        self.extent(sizes, t).size
    }

    /// The alignment of a type in bytes, which is 1, 2, 4 or 8.
    ///
    /// The sizes are those of the named types under this layout.
    pub fn align(&self, sizes: &Sizes, t: &Ty) -> u64
        requires formed { IsTrue (is_formed self.now) }
        requires fits { Fits self.now sizes.now t.now }
        ensures align { result ≡ type_align self.now sizes.now t.now }
        ensures low { 0 < result }
        ensures high { result ≤ 8 }
    {
        self.extent(sizes, t).align
    }

    /// How far two elements of this type are apart in an array, in bytes: its size, rounded up to its alignment.
    ///
    /// The sizes are those of the named types under this layout.
    pub fn stride(&self, sizes: &Sizes, t: &Ty) -> u64
        requires formed { IsTrue (is_formed self.now) }
        requires fits { Fits self.now sizes.now t.now }
        ensures stride { result ≡ type_stride self.now sizes.now t.now }
        ensures small { result ≤ size_limit + 7 }
    {
        stride(self.extent(sizes, t))
    }

    /// Where a field of a struct begins, in bytes from the struct's beginning.
    ///
    /// The type is a struct, and has this field. The sizes are those of the named types under this layout.
    pub fn offset(&self, sizes: &Sizes, t: &Ty, field: u32) -> u64
        requires formed { IsTrue (is_formed self.now) }
        requires fits { Fits self.now sizes.now t.now }
        requires field { HasField t.now field }
        ensures offset { result ≡ offset_of self.now sizes.now t.now field }
        ensures small { result ≤ size_limit + 7 }
    {
        match t {
            Ty::Struct(packed, fields) => self.place_of(
                sizes,
                *packed,
                fields.as_slice(),
                field as usize,
            ),
            _ => 0,
        }
    }

    /// Whether a type, and each type inside it, has at most `0x1000_0000` bytes.
    ///
    /// The sizes are those of the named types under this layout.
    pub fn fits(&self, sizes: &Sizes, t: &Ty) -> bool
        requires { IsTrue (is_formed self.now) }
        ensures { IsTrue result ↔ Fits self.now sizes.now t.now }
    {
        self.measured(sizes, t).is_some()
    }

    /// The numbers of a type that fits.
    fn extent(&self, sizes: &Sizes, t: &Ty) -> Extent
        requires formed { IsTrue (is_formed self.now) }
        requires fits { Fits self.now sizes.now t.now }
        ensures { Agrees result (measure_of self.now sizes.now t.now) }
    {
        match self.measured(sizes, t) {
            Some(extent) => extent,
            None => Extent { size: 0, align: 1 },
        }
    }

    /// Where a field among these begins.
    fn place_of(&self, sizes: &Sizes, packed: bool, fields: &[Ty], field: usize) -> u64
        requires formed { IsTrue (is_formed self.now) }
        requires fits { (whole packed (fields_of packed (map (measure_of self.now sizes.now) fields.now))).fits ≡ true }
        requires field { field < length fields.now }
        ensures place { result ≡ offset_in packed (map (measure_of self.now sizes.now) (take field fields.now)) (slice_get (map (measure_of self.now sizes.now) fields.now) field) }
        ensures small { result ≤ size_limit + 7 }
    {
        let before = match self.end_of(sizes, packed, fields.split_at(field).0) {
            None => return 0,
            Some(before) => before,
        };
        match self.measured(sizes, &fields[field]) {
            None => 0,
            Some(one) => place_after(packed, before.size, one.align),
        }
    }
}
