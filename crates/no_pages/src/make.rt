ghost use Rattle.std.specs.Prelude.{◌≡◌, ◌<◌, ℕ, IfOk, true, false};
ghost use Rattle.no_layout.specs.Memory.{AreFormed};
ghost use Rattle.no_pages.specs.Made.{IsMade, listed};
ghost use Rattle.no_pages.specs.Table.{byte_of, dirty_of, held_of, regions_of};

use crate::judge::kind_of;
use crate::slot::{Bytes, Slot};
use crate::table::{PAGES, PageTable};
use no_ir::NoMemory;
use no_layout::Regions;
use std::alloc::Global;

impl PageTable {
    /// All pages are present, and all bytes are 0.
    pub fn zeros(alloc: Global, regions: Regions) -> Result<PageTable, NoMemory>
        requires { AreFormed regions }
        ensures regions { IfOk result (λ t. regions_of t ≡ regions) }
        ensures bytes { IfOk result (λ t. byte_of t ≡ λ a. 0) }
        ensures held { IfOk result (λ t. (p : ℕ) → p < 131328 → held_of t p ≡ true) }
        ensures dirty { IfOk result (λ t. dirty_of t ≡ λ p. false) }
    {
        PageTable::make(alloc, regions, true)
    }

    /// All pages are absent.
    pub fn absent(alloc: Global, regions: Regions) -> Result<PageTable, NoMemory>
        requires { AreFormed regions }
        ensures regions { IfOk result (λ t. regions_of t ≡ regions) }
        ensures bytes { IfOk result (λ t. byte_of t ≡ λ a. 0) }
        ensures held { IfOk result (λ t. held_of t ≡ λ p. false) }
        ensures dirty { IfOk result (λ t. dirty_of t ≡ λ p. false) }
    {
        PageTable::make(alloc, regions, false)
    }

    fn make(alloc: Global, regions: Regions, present: bool) -> Result<PageTable, NoMemory>
        requires { AreFormed regions }
        ensures { IfOk result (λ t. IsMade t regions present) }
    {
        let zeros = Box::new(alloc, [0; 4096])?;
        let mut slots = Vec::with_capacity(alloc, PAGES)?;
        for page in 0..PAGES {
            let kind = kind_of(&regions, page as u64);
            let bytes = if present { Bytes::Zeros } else { Bytes::Absent };
            slots.push(Slot {
                kind,
                dirty: false,
                bytes,
            })?;
        }
        Ok(PageTable {
            alloc,
            regions,
            zeros,
            slots,
        })
    }

    /// The pages that were written since the table was made, rising.
    pub fn dirty(&self) -> Result<Vec<u32>, NoMemory>
        ensures { IfOk result (λ v. v.items ≡ listed (dirty_of self.now) 131328) }
    {
        let mut pages = Vec::new(self.alloc);
        for page in 0..PAGES {
            if self.slots[page].dirty {
                pages.push(page as u32)?;
            }
        }
        Ok(pages)
    }
}
