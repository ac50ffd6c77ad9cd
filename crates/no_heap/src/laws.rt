ghost use Rattle.std.specs.Prelude.{◌≡◌, ℕ, Bool, true, List, Some};
ghost use Rattle.no_heap.specs.declared.block.Block.{Block};
ghost use Rattle.no_heap.specs.declared.block.Entry.{Entry};
ghost use Rattle.no_heap.specs.Blocks.{AreLive, set_block};
ghost use Rattle.no_heap.specs.Changes.{AreChanges, Applies};
ghost use Rattle.no_heap.specs.Fit.{IsFit, fit, rounded};

// Laws over all heaps, which the contracts say. The calls do nothing.

/// Changes since an earlier heap, applied to it, give the blocks again.
#[tactic(auto, using(crate::proofs::Restored::applied))]
pub fn changes_restore()
    ensures { (now since new : List Block) (entries : List Entry) (answer : Bool) → AreLive now → AreLive since → AreChanges now since entries → Applies answer since new entries → (answer ≡ true) × (new ≡ now) }
{}

/// The first gap is the least place of all at which a block fits.
#[tactic(auto, using(crate::proofs::Gaps::fit_is))]
pub fn fit_is_least()
    ensures { (blocks : List Block) (size : ℕ) → AreLive blocks → IsFit blocks size (fit blocks size) }
{}

/// Live blocks stay so with one more at the place that fits, and without any of them.
pub fn live_blocks_stay()
    ensures placed { (blocks : List Block) (size place : ℕ) → AreLive blocks → fit blocks size ≡ Some place → AreLive (set_block blocks place (rounded size)) }
    ensures freed { (blocks : List Block) (place : ℕ) → AreLive blocks → AreLive (set_block blocks place 0) }
{}
