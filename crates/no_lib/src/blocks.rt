ghost use Rattle.std.specs.Prelude.{◌<◌, ◌≡◌};
ghost use Rattle.no_semantics.specs.Externals.{bounded, do_free, do_malloc, with_one};
ghost use Rattle.no_lib.specs.Answers.{Means, Seen};

use crate::answer::LibAnswer;
use crate::arguments::one;
use no_heap::Heap;
use no_module::External;

/// `malloc`: the place of a new block, or null.
#[tactic(auto, using(crate::proofs::Told::not_one_means))]
pub(crate) fn malloc(args: &[u64], left: u64, heap: &mut Heap) -> LibAnswer
    requires { 0 < left }
    ensures { (s : Seen) → s.heap ≡ heap.old → Means External.Malloc (λ w. bounded left (with_one args.now do_malloc w) w) result s (record s { heap = heap.new }) }
{
    let Some(size) = one(args) else {
        return LibAnswer::Stuck;
    };
    match heap.place(size) {
        Some(place) => LibAnswer::Value(place as u64, 1),
        None => LibAnswer::Value(0, 1),
    }
}

/// `free`: the block that begins there is one no longer.
#[tactic(auto, using(crate::proofs::Told::not_one_means))]
pub(crate) fn free(args: &[u64], left: u64, heap: &mut Heap) -> LibAnswer
    requires { 0 < left }
    ensures { (s : Seen) → s.heap ≡ heap.old → Means External.Free (λ w. bounded left (with_one args.now do_free w) w) result s (record s { heap = heap.new }) }
{
    let Some(at) = one(args) else {
        return LibAnswer::Stuck;
    };
    match heap.free(at) {
        Ok(()) => LibAnswer::Nothing(1),
        Err(trap) => LibAnswer::Trapped(trap),
    }
}
