ghost use Rattle.std.specs.Prelude.{◌<◌};
ghost use Rattle.no_semantics.specs.Externals.{Does, bounded, do_abort, do_exit, still, with_none, with_one};
ghost use Rattle.no_lib.specs.Answers.{Means, Seen};

use crate::answer::LibAnswer;
use crate::arguments::{none, one};
use no_ir::Trap;
use no_module::External;

/// `exit`: the run ends with the low 8 bits.
#[tactic(auto, using(crate::proofs::Told::not_one_means))]
pub(crate) fn exit(args: &[u64], left: u64) -> LibAnswer
    requires { 0 < left }
    ensures { (s : Seen) → Means External.Exit (λ w. bounded left (with_one args.now do_exit w) w) result s s }
{
    let Some(status) = one(args) else {
        return LibAnswer::Stuck;
    };
    LibAnswer::Exited((status % 256) as u8)
}

/// `abort`: a trap.
#[tactic(auto, using(crate::proofs::Told::not_none_means))]
pub(crate) fn abort(args: &[u64], left: u64) -> LibAnswer
    requires { 0 < left }
    ensures { (s : Seen) → Means External.Abort (λ w. bounded left (with_none args.now do_abort w) w) result s s }
{
    if none(args) {
        LibAnswer::Trapped(Trap::Abort)
    } else {
        LibAnswer::Stuck
    }
}
