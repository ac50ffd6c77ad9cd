ghost use Rattle.std.specs.Prelude.{◌≡◌, ℕ, ◌+◌, ◌<◌, ◌^◌, List, Option, Some, Vec, IfOk, OnOk, length};
ghost use Rattle.std.specs.Global.{Global as Owner};
ghost use Rattle.no_calls.specs.Nearest.{AreNearest};
ghost use Rattle.no_calls.specs.Reaching.{IsShortest};
ghost use Rattle.no_calls.specs.Spreading.{IsListedTo, Step, Towards, at};

use crate::nearest::nearest_in;
use crate::rows::row_of;
use no_ir::{List, NoMemory};
use std::alloc::Global;

/// Lists a number, if it was found.
fn list_found(far: &[Option<u32>], k: usize, ks: &mut List<u32>) -> Result<(), NoMemory>
    requires within { k < length far.now }
    requires short { length far.now < 2 ^ 32 }
    ensures { IsListedTo far.now k ks.old → OnOk result (IsListedTo far.now (k + 1) ks.new) }
{
    if far[k].is_none() {
        return Ok(());
    }
    ks.push(k as u32)?;
    Ok(())
}

/// The numbers that were found, in order.
pub(crate) fn listed(alloc: Global, far: &[Option<u32>]) -> Result<List<u32>, NoMemory>
    requires { length far.now < 2 ^ 32 }
    ensures { IfOk result (IsListedTo far.now (length far.now)) }
{
    let mut ks = List::new(alloc);
    for k in 0..far.len() {
        list_found(far, k, &mut ks)?;
    }
    Ok(ks)
}

/// Goes from a number to the nearest member of the sets that it uses, and so on until no step is left.
pub(crate) fn walk(
    alloc: Global,
    uses: &[Vec<u32>],
    near: &[Option<(u32, u32)>],
    from: u32,
    distance: u32,
) -> Result<List<u32>, NoMemory>
    ensures { (members : List (Vec ℕ Owner)) (far : List (Option ℕ)) (goals : List ℕ) → Towards uses.now members goals far → AreNearest members far near.now → at far from ≡ Some distance → from < length uses.now → IfOk result (λ way. IsShortest (Step uses.now members) goals from (Some way)) }
{
    let mut way = List::new(alloc);
    way.push(from)?;
    let mut here = from;
    for _ in 0..distance {
        let Some((_, next)) = nearest_in(near, row_of(uses, here as usize)) else {
            return Ok(way);
        };
        way.push(next)?;
        here = next;
    }
    Ok(way)
}
