ghost use Rattle.std.specs.Prelude.{◌≡◌, ◌<◌, ℕ, OnErr, OnOk, true};
ghost use Rattle.no_layout.specs.Memory.{AreOwn, access};
ghost use Rattle.no_layout.specs.Numbers.{IsShared};
ghost use Rattle.no_layout.specs.declared.memory.Access.TheVariants.{Done};

use crate::{Memory, PAGE_SIZE};
use no_ir::NoMemory;

/// Gives all pages of a write that is allowed bytes of their own, so that writing there takes no memory. No byte changes.
pub fn prepare_all<M: Memory>(memory: &mut M, addr: u64, len: u64) -> Result<(), NoMemory>
    requires some { 0 < len }
    requires allowed { access (M.regions memory.old) (M.held memory.old) true addr len ≡ Done }
    ensures own { OnOk result (AreOwn (M.own memory.new) addr len) }
    ensures enough { OnErr result (IsShared (M.own memory.old) addr len) }
    ensures kept { (p : ℕ) → M.own memory.old p ≡ true → M.own memory.new p ≡ true }
    ensures bytes { M.byte memory.new ≡ M.byte memory.old }
    ensures dirty { M.dirty memory.new ≡ M.dirty memory.old }
    ensures regions { M.regions memory.new ≡ M.regions memory.old }
    ensures held { M.held memory.new ≡ M.held memory.old }
{
    // The regions end below 2 to the power of 32, so that the numbers of their pages fit.
    let _regions = memory.regions();
    let first = addr / PAGE_SIZE;
    let last = (addr + len - 1) / PAGE_SIZE;
    for page in first..last + 1 {
        memory.prepare(page as u32)?;
    }
    Ok(())
}
