ghost use Rattle.std.specs.Prelude.{◌<◌, ◌≡◌, ℕ, List, Some};
ghost use Rattle.no_heap.specs.Blocks.{set_block};
ghost use Rattle.no_heap.specs.Fit.{fit, rounded};
ghost use Rattle.no_semantics.specs.Externals.{bounded, do_calloc, with_two};
ghost use Rattle.no_lib.specs.declared.env.Env.{Env as Stream};
ghost use Rattle.no_lib.specs.Answers.{Means, seen};

use crate::answer::LibAnswer;
use crate::arguments::two;
use no_heap::Heap;
use no_layout::{Memory, Stored};
use no_module::External;

/// `calloc`: a block for the exact product, whose first bytes, as many as the product, become 0. The block is live only
/// once they are.
#[tactic(auto, using(crate::proofs::Told::not_two_means))]
pub(crate) fn calloc<M: Memory>(args: &[u64], left: u64, mem: &mut M, heap: &mut Heap) -> LibAnswer
    requires { 0 < left }
    ensures means { (env : Stream) → Means External.Calloc (λ w. bounded left (with_two args.now do_calloc w) w) result (seen (M.regions mem.old) (M.held mem.old) (M.own mem.old) (M.byte mem.old) heap.old env) (seen (M.regions mem.new) (M.held mem.new) (M.own mem.new) (M.byte mem.new) heap.new env) }
{
    let Some(given) = two(args) else {
        return LibAnswer::Stuck;
    };
    let _blocks = heap.blocks();
    let _regions = mem.regions();
    let Some(product) = given.0.checked_mul(given.1) else {
        return LibAnswer::Value(0, 1);
    };
    let Some(place) = heap.place_for(product) else {
        return LibAnswer::Value(0, 1);
    };
    let cost = 1 + product / 64;
    if cost > left {
        return LibAnswer::Over;
    }
    if product == 0 {
        put_block(heap, product, place);
        return LibAnswer::Value(place as u64, cost);
    }
    match mem.set(place as u64, product, 0) {
        Stored::Done => {
            put_block(heap, product, place);
            LibAnswer::Value(place as u64, cost)
        }
        Stored::Missing(page) => LibAnswer::WantPage(page),
        Stored::Refused(_trap) => LibAnswer::NoMemory,
        Stored::NoMemory => LibAnswer::NoMemory,
    }
}

/// Puts in the block for so many bytes, whose place is known.
#[tactic(auto, using(crate::proofs::Cleared::is_placed))]
fn put_block(heap: &mut Heap, size: u64, place: u32)
    requires { Some place ≡ fit heap.old size }
    ensures { heap.new ≡ set_block heap.old place (rounded size) }
{
    let _place = heap.place(size);
}
