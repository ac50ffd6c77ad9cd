ghost use Rattle.std.specs.Prelude.{IfOk};
ghost use Rattle.std.specs.BTreeSet.{contains};
ghost use Rattle.std.specs.Ordering.{nat_cmp};
ghost use Rattle.no_read_types.specs.Queue.{TakesLeast, Adds};

use std::alloc::AllocError;
use std::collections::BTreeSet;

/// One more is ready.
pub(crate) fn add_ready(ready: &mut BTreeSet<u32>, n: u32) -> Result<(), AllocError>
    ensures { IfOk result (λ _. Adds (contains nat_cmp ready.old) (contains nat_cmp ready.new) n) }
{
    ready.insert(n)?;
    Ok(())
}

/// The least that is ready.
pub(crate) fn take_least(ready: &mut BTreeSet<u32>) -> Option<u32>
    ensures { TakesLeast (contains nat_cmp ready.old) (contains nat_cmp ready.new) result }
{
    ready.pop_first()
}
