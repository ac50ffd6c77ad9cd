ghost use Rattle.std.specs.Prelude.{◌≡◌, ◌<◌, ◌⊎◌, Some, length};
ghost use Rattle.std.specs.List.{Contains};
ghost use Rattle.no_verify_paths.specs.Survey.{IsNeed};
ghost use Rattle.no_verify_paths.specs.Judge.{IsEarlier, IsNotAfter, IsSolved, Judged, is_missing};

use crate::need::Need;
use crate::words::is_member;
use no_ir::Function;

/// The earlier one of two places, by block and then by place.
fn least(a: (u32, u32), b: (u32, u32)) -> (u32, u32)
    ensures one { (result ≡ a) ⊎ (result ≡ b) }
    ensures first { IsNotAfter result a }
    ensures second { IsNotAfter result b }
{
    if a.0 < b.0 {
        return a;
    }
    if a.0 == b.0 && a.1 <= b.1 {
        return a;
    }
    b
}

/// The earlier one of a place that was found, if any was, and of another.
fn earlier(found: Option<(u32, u32)>, user: (u32, u32)) -> Option<(u32, u32)>
    ensures { IsEarlier found user result }
{
    match found {
        Some(first) => Some(least(first, user)),
        None => Some(user),
    }
}

/// Whether some path misses a need.
fn is_missed(need: Need, sets: &[u64], gens: &[u64]) -> bool
    requires within { need.block < length sets.now }
    requires wide { length gens.now ≡ length sets.now }
    ensures { result ≡ is_missing need sets.now gens.now }
{
    let at = need.block as usize;
    !(is_member(sets[at], need.register) || (need.at_end && is_member(gens[at], need.register)))
}

fn judge_need(
    function: &Function,
    number: usize,
    sets: &[u64],
    gens: &[u64],
    need: Need,
    found: Option<(u32, u32)>,
) -> Option<(u32, u32)>
    requires solved { IsSolved function.now number sets.now gens.now }
    requires stands { IsNeed function.now number need }
    ensures { Judged function.now (λ u. u ≡ need) found result }
{
    if is_missed(need, sets, gens) {
        return earlier(found, need.user);
    }
    found
}

/// The first one of what was found, and of the users of a row's missed needs.
pub(crate) fn judge(
    function: &Function,
    number: usize,
    sets: &[u64],
    gens: &[u64],
    needs: &[Need],
    mut found: Option<(u32, u32)>,
) -> Option<(u32, u32)>
    requires solved { IsSolved function.now number sets.now gens.now }
    requires stand { (u : Need) → Contains needs.now u → IsNeed function.now number u }
    ensures { Judged function.now (Contains needs.now) found result }
{
    for need in needs {
        found = judge_need(function, number, sets, gens, *need, found);
    }
    found
}
