ghost use Rattle.std.specs.Prelude.{◌<◌};
ghost use Rattle.no_semantics.specs.Externals.{bounded, do_external, external_effect};
ghost use Rattle.no_lib.specs.Answers.{Means, seen};

use crate::answer::LibAnswer;
use crate::blocks::{free, malloc};
use crate::clearing::calloc;
use crate::ends::{abort, exit};
use crate::env::Env;
use crate::filling::fill;
use crate::moving::transfer;
use crate::numbers::{choose, swap};
use crate::streams::{get_char, put_char};
use crate::text::puts;
use no_heap::Heap;
use no_ir::Pred;
use no_layout::Memory;
use no_module::External;

/// Does a call of an external function, given the numbers of its arguments and what is left of the budget.
///
/// With nothing left it is `Over`, and nothing else is looked at. Then a trap, and after it a cost above what is left,
/// that need no memory are answered; then the lowest page that is absent, or the want of input; then a trap or a cost
/// that the bytes read settle. Nothing changes but at `Value` and `Nothing`. Arguments that the external doesn't have are
/// `Stuck`, and so are the two of a server's part, which the machine does itself.
#[tactic(auto, using(crate::proofs::Told::nothing_left, crate::proofs::Told::something_left))]
pub fn external<M: Memory>(
    which: External,
    args: &[u64],
    left: u64,
    mem: &mut M,
    heap: &mut Heap,
    env: &mut Env,
) -> LibAnswer
    ensures means { Means which (external_effect (M.regions mem.old) which args.now left) result (seen (M.regions mem.old) (M.held mem.old) (M.own mem.old) (M.byte mem.old) heap.old env.old) (seen (M.regions mem.new) (M.held mem.new) (M.own mem.new) (M.byte mem.new) heap.new env.new) }
{
    if left == 0 {
        return LibAnswer::Over;
    }
    dispatch(which, args, left, mem, heap, env)
}

/// The same with something left.
#[tactic(auto, using(crate::proofs::Told::hints, crate::proofs::Told::stuck_alone, crate::proofs::Chosen::umin_is, crate::proofs::Chosen::umax_is, crate::proofs::Chosen::smin_is, crate::proofs::Chosen::smax_is))]
fn dispatch<M: Memory>(
    which: External,
    args: &[u64],
    left: u64,
    mem: &mut M,
    heap: &mut Heap,
    env: &mut Env,
) -> LibAnswer
    requires { 0 < left }
    ensures means { Means which (λ w. bounded left (do_external (M.regions mem.old) which args.now w) w) result (seen (M.regions mem.old) (M.held mem.old) (M.own mem.old) (M.byte mem.old) heap.old env.old) (seen (M.regions mem.new) (M.held mem.new) (M.own mem.new) (M.byte mem.new) heap.new env.new) }
{
    match which {
        External::GetChar => get_char(args, left, env),
        External::PutChar => put_char(args, left, env),
        External::Puts => puts(args, left, mem, env),
        External::Malloc => malloc(args, left, heap),
        External::Calloc => calloc(args, left, mem, heap),
        External::Free => free(args, left, heap),
        External::Exit => exit(args, left),
        External::Abort => abort(args, left),
        External::Move => transfer(args, left, mem),
        External::Set => fill(args, left, mem),
        External::Swap(width) => swap(width, args, left),
        External::UMin(width) => choose(Pred::Ule, width, args, left),
        External::UMax(width) => choose(Pred::Uge, width, args, left),
        External::SMin(width) => choose(Pred::Sle, width, args, left),
        External::SMax(width) => choose(Pred::Sge, width, args, left),
        External::Hint => LibAnswer::Nothing(1),
        External::Alloca => LibAnswer::Stuck,
        External::Map => LibAnswer::Stuck,
    }
}
