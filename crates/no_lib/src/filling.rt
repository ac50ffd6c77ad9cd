ghost use Rattle.std.specs.Prelude.{◌<◌, ◌≡◌, ℕ, List, true};
ghost use Rattle.no_heap.specs.declared.block.Block.{Block};
ghost use Rattle.no_semantics.specs.Externals.{bounded, do_set, with_four};
ghost use Rattle.no_lib.specs.declared.env.Env.{Env as Stream};
ghost use Rattle.no_lib.specs.Answers.{Means, seen};

use crate::answer::LibAnswer;
use crate::arguments::four;
use no_layout::{Access, Memory, Stored};
use no_module::External;

/// `llvm.memset`: the low byte is written over and over.
pub(crate) fn fill<M: Memory>(args: &[u64], left: u64, mem: &mut M) -> LibAnswer
    requires { 0 < left }
    ensures means { (heap : List Block) (env : Stream) → Means External.Set (λ w. bounded left (with_four args.now (do_set (M.regions mem.old)) w) w) result (seen (M.regions mem.old) (M.held mem.old) (M.own mem.old) (M.byte mem.old) heap env) (seen (M.regions mem.new) (M.held mem.new) (M.own mem.new) (M.byte mem.new) heap env) }
{
    let Some(given) = four(args) else {
        return LibAnswer::Stuck;
    };
    let (to, value, n) = given;
    if n == 0 {
        return LibAnswer::Nothing(1);
    }
    let cost = 1 + n / 64;
    match mem.ready(to, n, true) {
        Access::Refused(trap) => LibAnswer::Trapped(trap),
        Access::Missing(page) => {
            if cost > left {
                LibAnswer::Over
            } else {
                LibAnswer::WantPage(page)
            }
        }
        Access::Done => {
            if cost > left {
                return LibAnswer::Over;
            }
            match mem.set(to, n, (value % 256) as u8) {
                Stored::Done => LibAnswer::Nothing(cost),
                Stored::Missing(_page) => LibAnswer::NoMemory,
                Stored::Refused(_trap) => LibAnswer::NoMemory,
                Stored::NoMemory => LibAnswer::NoMemory,
            }
        }
    }
}
