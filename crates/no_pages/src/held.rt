ghost use Rattle.std.specs.Prelude.{◌≡◌, vec_len};

use crate::slot::Bytes;
use crate::table::{PAGES, PageTable};
use no_ir::NoMemory;
use std::alloc::Global;

/// Pages that are kept until a table takes them, with a slot for each page.
#[derive(Drop)]
pub struct HeldPages {
    alloc: Global,
    pages: Vec<Option<Box<[u8; 4096]>>>,
    ghost all: { vec_len pages ≡ 131328 },
}

impl HeldPages {
    ghost use Rattle.std.specs.Prelude.{◌≡◌, ◌<◌, IfOk, None, OnErr, OnOk};
    ghost use Rattle.no_pages.specs.Held.{with_page};
    ghost use Rattle.no_pages.specs.Keeping.{kept_of};

    /// No pages yet.
    pub fn new(alloc: Global) -> Result<HeldPages, NoMemory>
        ensures { IfOk result (λ held. kept_of held ≡ λ p. None) }
    {
        let mut pages = Vec::with_capacity(alloc, PAGES)?;
        for _page in 0..PAGES {
            pages.push(None)?;
        }
        Ok(HeldPages { alloc, pages })
    }

    /// Keeps these bytes of a page, in the place of those that were kept of it.
    pub fn keep(&mut self, page: u32, bytes: &[u8; 4096]) -> Result<(), NoMemory>
        requires { page < 131328 }
        ensures kept { OnOk result (kept_of self.new ≡ with_page (kept_of self.old) page bytes.now) }
        ensures same { OnErr result (kept_of self.new ≡ kept_of self.old) }
    {
        let own = Box::new(self.alloc, *bytes)?;
        self.pages[page as usize] = Some(own);
        Ok(())
    }
}

impl PageTable {
    ghost use Rattle.std.specs.Prelude.{◌≡◌, ◌*◌, ℕ, length, true};
    ghost use Rattle.no_layout.specs.Memory.{written};
    ghost use Rattle.no_pages.specs.Held.{AreHeld, IsHeld, IsLaid, over};
    ghost use Rattle.no_pages.specs.Keeping.{bytes_of, kept_of};
    ghost use Rattle.no_pages.specs.Table.{byte_of, dirty_of, held_of, own_of, regions_of};

    /// Replaces a page that is present, by a move.
    fn adopt_page(&mut self, page: usize, bytes: Box<[u8; 4096]>)
        requires { held_of self.old page ≡ true }
        ensures whole { length bytes.value ≡ 4096 }
        ensures bytes { byte_of self.new ≡ written (byte_of self.old) (4096 * page) bytes.value }
        ensures own { own_of self.new page ≡ true }
        ensures kept { (p : ℕ) → own_of self.old p ≡ true → own_of self.new p ≡ true }
        ensures dirty { dirty_of self.new ≡ dirty_of self.old }
        ensures regions { regions_of self.new ≡ regions_of self.old }
        ensures held { held_of self.new ≡ held_of self.old }
    {
        let _whole = &bytes[..];
        self.slots[page].bytes = Bytes::Own(bytes);
    }

    /// Replaces a page by the one that a slot keeps, if it keeps one.
    fn adopt_slot(&mut self, page: usize, kept: Option<Box<[u8; 4096]>>)
        requires { IsHeld (held_of self.old) page (bytes_of kept) }
        ensures bytes { IsLaid (bytes_of kept) page (byte_of self.old) (byte_of self.new) }
        ensures kept { (p : ℕ) → own_of self.old p ≡ true → own_of self.new p ≡ true }
        ensures dirty { dirty_of self.new ≡ dirty_of self.old }
        ensures regions { regions_of self.new ≡ regions_of self.old }
        ensures held { held_of self.new ≡ held_of self.old }
    {
        match kept {
            Some(bytes) => self.adopt_page(page, bytes),
            None => {}
        }
    }

    /// Replaces all pages that were kept, each of which is present, by moves. It takes no memory and marks none as written.
    pub fn adopt(&mut self, held: HeldPages)
        requires { AreHeld (held_of self.old) (kept_of held) }
        ensures bytes { byte_of self.new ≡ over (kept_of held) (byte_of self.old) }
        ensures kept { (p : ℕ) → own_of self.old p ≡ true → own_of self.new p ≡ true }
        ensures dirty { dirty_of self.new ≡ dirty_of self.old }
        ensures regions { regions_of self.new ≡ regions_of self.old }
        ensures held { held_of self.new ≡ held_of self.old }
    {
        let HeldPages {
            alloc: _,
            mut pages,
        } = held;
        for page in 0..PAGES {
            let kept = pages[page].take();
            self.adopt_slot(page, kept);
        }
    }
}
