ghost use Rattle.std.specs.Prelude.{◌≡◌, ◌+◌, ◌<◌, ◌≤◌, ◌/◌, IsTrue, ◌*◌, slice_index, true};
ghost use Rattle.std.specs.Int.{next_multiple_of};
ghost use Rattle.no_layout.specs.Text.{is_formed};
ghost use Rattle.no_layout.specs.Sizes.{int_align, int_size, measure, place_after, size_limit, stride_of, whole, with_field};
ghost use Rattle.no_layout.specs.Measured.{Agrees, IsMeasured, IsSmall};
ghost use Rattle.no_layout.specs.Measures.{IsFitting, reached};

use crate::Layout;

/// The size and alignment of a type, in bytes.
#[derive(Clone, Copy, Debug, PartialEq, Eq)]
pub struct Extent {
    pub size: u64,
    pub align: u64,
}

/// The most bytes that a type may have.
pub const SIZE_LIMIT: u64 = 0x1000_0000;

/// The alignment in bytes of the integer type at a place.
#[tactic(auto, using(crate::proofs::Formed::int_align_low, crate::proofs::Formed::int_align_high))]
fn align_at(layout: &Layout, place: usize) -> u64
    requires formed { IsTrue (is_formed layout.now) }
    requires place { place < 5 }
    ensures align { result ≡ slice_index layout.now.int_align place / 8 }
    ensures low { 0 < result }
    ensures high { result ≤ 8 }
{
    u64::from(layout.int_align[place] / 8)
}

/// The numbers of an integer type.
pub fn integer(layout: &Layout, width: u8) -> Extent
    requires { IsTrue (is_formed layout.now) }
    ensures { Agrees result (measure (int_size width) (int_align layout.now width) true) }
{
    match width {
        1 => Extent {
            size: 1,
            align: align_at(layout, 0),
        },
        8 => Extent {
            size: 1,
            align: align_at(layout, 1),
        },
        16 => Extent {
            size: 2,
            align: align_at(layout, 2),
        },
        32 => Extent {
            size: 4,
            align: align_at(layout, 3),
        },
        64 => Extent {
            size: 8,
            align: align_at(layout, 4),
        },
        _ => Extent { size: 0, align: 1 },
    }
}

/// The numbers of a pointer.
pub fn pointer(layout: &Layout) -> Extent
    requires { IsTrue (is_formed layout.now) }
    ensures { Agrees result (measure (layout.now.pointer / 8) (layout.now.pointer_align / 8) true) }
{
    Extent {
        size: u64::from(layout.pointer / 8),
        align: u64::from(layout.pointer_align / 8),
    }
}

/// How far the beginnings of two elements are apart.
pub fn stride(element: Extent) -> u64
    requires { IsSmall element }
    ensures stride { result ≡ next_multiple_of element.size element.align }
    ensures small { result ≤ size_limit + 7 }
{
    element.size.next_multiple_of(element.align)
}

/// An array of so many elements, where it is not too large.
pub fn array(count: u64, element: Extent) -> Option<Extent>
    requires { IsSmall element }
    ensures { IsMeasured result (measure (count * stride_of (reached element)) element.align true) }
{
    let size = count.checked_mul(stride(element))?;
    if size <= SIZE_LIMIT {
        Some(Extent {
            size,
            align: element.align,
        })
    } else {
        None
    }
}

/// Where the next field begins.
pub fn place_after(packed: bool, end: u64, align: u64) -> u64
    requires end { end ≤ size_limit }
    requires align { 0 < align }
    requires align_most { align ≤ 8 }
    ensures place { result ≡ place_after packed end align }
    ensures small { result ≤ end + 7 }
{
    if packed {
        end
    } else {
        end.next_multiple_of(align)
    }
}

/// The end of the fields and the greatest of their alignments, with one field more, where it is not too large.
pub fn with_field(packed: bool, all: Extent, field: Extent) -> Option<Extent>
    requires all { IsSmall all }
    requires field { IsSmall field }
    ensures { IsFitting result (with_field packed (reached all) (reached field)) }
{
    let size = place_after(packed, all.size, field.align) + field.size;
    if size <= SIZE_LIMIT {
        Some(Extent {
            size,
            align: all.align.max(field.align),
        })
    } else {
        None
    }
}

/// A struct by its fields, where it is not too large.
pub fn whole(packed: bool, all: Extent) -> Option<Extent>
    requires { IsSmall all }
    ensures { IsMeasured result (whole packed (reached all)) }
{
    if packed {
        return Some(Extent {
            size: all.size,
            align: 1,
        });
    }
    let size = all.size.next_multiple_of(all.align);
    if size <= SIZE_LIMIT {
        Some(Extent {
            size,
            align: all.align,
        })
    } else {
        None
    }
}
