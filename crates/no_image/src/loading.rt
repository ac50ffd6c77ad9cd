ghost use Rattle.std.specs.Prelude.{◌≡◌, ◌<◌, ℕ, IfOk, OnOk, false, true};
ghost use Rattle.no_pages.specs.Table.{byte_of, dirty_of, held_of, regions_of};
ghost use Rattle.no_layout.specs.Memory.{AreFormed};
ghost use Rattle.no_image.specs.Pieces.{AreInside, over, placed};

use no_ir::{Bytes, NoMemory};
use no_pages::PageTable;
use no_semantics::Image;
use std::alloc::Global;

/// A memory with all its pages that holds an image, as `image` makes it. No page is marked as written.
pub fn load(alloc: Global, image: &Image) -> Result<PageTable, NoMemory>
    requires formed { AreFormed image.now.regions }
    requires inside { AreInside image.now.regions image.now.pieces }
    ensures regions { IfOk result (λ m. regions_of m ≡ image.now.regions) }
    ensures bytes { IfOk result (λ m. byte_of m ≡ placed image.now.pieces) }
    ensures held { IfOk result (λ m. (p : ℕ) → p < 131328 → held_of m p ≡ true) }
    ensures dirty { IfOk result (λ m. dirty_of m ≡ λ p. false) }
{
    let mut memory = PageTable::zeros(alloc, image.regions)?;
    fill(&mut memory, image.pieces.as_slice())?;
    Ok(memory)
}

/// Writes the pieces of an image, the last of them first.
fn fill(memory: &mut PageTable, pieces: &[(u32, Bytes)]) -> Result<(), NoMemory>
    requires formed { AreFormed (regions_of memory.old) }
    requires inside { AreInside (regions_of memory.old) pieces.now }
    requires held { (p : ℕ) → p < 131328 → held_of memory.old p ≡ true }
    ensures bytes { OnOk result (byte_of memory.new ≡ over pieces.now (byte_of memory.old)) }
    ensures regions { regions_of memory.new ≡ regions_of memory.old }
    ensures held { held_of memory.new ≡ held_of memory.old }
    ensures dirty { dirty_of memory.new ≡ dirty_of memory.old }
{
    let mut left = pieces.len();
    while left > 0 {
        left -= 1;
        let piece = &pieces[left];
        memory.fill(piece.0, piece.1.as_slice())?;
    }
    Ok(())
}
