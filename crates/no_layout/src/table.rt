ghost use Rattle.std.specs.Prelude.{◌≡◌, ◌<◌, ◌^◌, ℕ, List, IsTrue, length, slice_get};
ghost use Rattle.no_layout.specs.Text.{is_formed};
ghost use Rattle.no_layout.specs.Measured.{IsAnswer};
ghost use Rattle.no_layout.specs.Sizes.{AreLower, entry_extent, entry_fits, fits_at, sizes_of};
ghost use Rattle.no_ir.specs.declared.types.Ty.{Ty};
ghost use Rattle.no_layout.specs.declared.layout.Layout.{Layout};

use crate::{Layout, Sizes, SizesFault};
use no_ir::{Bytes, List, Ty};
use std::alloc::Global;

impl Layout {
    /// Size and alignment of each named type of a module, each by those of the types before it.
    ///
    /// `TooLarge` names the first type that has, or has inside it a type that has, more than `0x1000_0000` bytes.
    pub fn sizes(&self, alloc: Global, types: &List<(Bytes, Ty)>) -> Result<Sizes, SizesFault>
        requires formed { IsTrue (is_formed self.now) }
        requires short { length types.now < 2 ^ 32 }
        ensures { IsAnswer self.now types.now result }
    {
        let mut sizes = Sizes::new(alloc);
        let mut number: u32 = 0;
        for named in types.as_slice() {
            match self.measured(&sizes, &named.1) {
                None => return Err(SizesFault::TooLarge(number)),
                Some(extent) => sizes.push(extent)?,
            }
            number += 1;
        }
        Ok(sizes)
    }
}

/// The law of named types that refer to lower numbers alone: each fits, and has its numbers, by the sizes of all of
/// them as by those of the types before it.
#[tactic(auto, using(crate::proofs::Lower::fits_whole, crate::proofs::Lower::extent_whole))]
pub fn sizes_hold_for_all_types()
    ensures fit { (l : Layout) (types : List (List ℕ × Ty)) (k : ℕ) → AreLower types → k < length types → fits_at l types k ≡ entry_fits l (sizes_of l types) (slice_get types k) }
    ensures numbers { (l : Layout) (types : List (List ℕ × Ty)) (k : ℕ) → AreLower types → k < length types → slice_get (sizes_of l types) k ≡ entry_extent l (sizes_of l types) (slice_get types k) }
{}
