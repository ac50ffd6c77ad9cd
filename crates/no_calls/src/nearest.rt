ghost use Rattle.std.specs.Prelude.{◌≡◌, ℕ, ◌⊎◌, List, Option, Vec, IfOk};
ghost use Rattle.std.specs.Global.{Global as Owner};
ghost use Rattle.std.specs.List.{Contains};
ghost use Rattle.no_calls.specs.Nearest.{AreNearest, Comes, IsNearest, IsNotAfter, near_at};
ghost use Rattle.no_calls.specs.Spreading.{Reason, at};

use no_ir::NoMemory;
use std::alloc::Global;

/// The first one of two distances with their numbers.
fn least(x: (u32, u32), y: (u32, u32)) -> (u32, u32)
    ensures one { (result ≡ x) ⊎ (result ≡ y) }
    ensures first { IsNotAfter result x }
    ensures second { IsNotAfter result y }
{
    if x.0 < y.0 {
        return x;
    }
    if x.0 == y.0 && x.1 <= y.1 {
        return x;
    }
    y
}

/// The first one of two that may be there.
fn nearer(x: Option<(u32, u32)>, y: Option<(u32, u32)>) -> Option<(u32, u32)>
    ensures one { (result ≡ x) ⊎ (result ≡ y) }
    ensures first { Comes result x }
    ensures second { Comes result y }
{
    match x {
        None => y,
        Some(a) => match y {
            None => x,
            Some(b) => Some(least(a, b)),
        },
    }
}

/// How far a number is, with the number, where it was found.
fn placed(far: &[Option<u32>], number: u32) -> Option<(u32, u32)>
    ensures { IsNearest (λ k. k ≡ number) far.now result }
{
    match far.get(number as usize) {
        Some(Some(distance)) => Some((*distance, number)),
        _ => None,
    }
}

/// The nearest one of these numbers, and of several the least.
fn nearest_of(far: &[Option<u32>], members: &[u32]) -> Option<(u32, u32)>
    ensures { IsNearest (Contains members.now) far.now result }
{
    let mut best = None;
    for member in members {
        best = nearer(best, placed(far, *member));
    }
    best
}

/// The nearest member of each set.
pub(crate) fn nearest_all(
    alloc: Global,
    members: &[Vec<u32>],
    far: &[Option<u32>],
) -> Result<Vec<Option<(u32, u32)>>, NoMemory>
    ensures { IfOk result (λ near. AreNearest members.now far.now near.items) }
{
    let mut near = Vec::new(alloc);
    for row in members {
        near.push(nearest_of(far, row.as_slice()))?;
    }
    Ok(near)
}

fn entry(near: &[Option<(u32, u32)>], set: u32) -> Option<(u32, u32)>
    ensures { result ≡ near_at near.now set }
{
    *near.get(set as usize)?
}

/// The nearest member of these sets.
pub(crate) fn nearest_in(near: &[Option<(u32, u32)>], sets: &[u32]) -> Option<(u32, u32)>
    ensures { (members : List (Vec ℕ Owner)) (far : List (Option ℕ)) → AreNearest members far near.now → IsNearest (Reason sets.now members) far result }
{
    let mut best = None;
    for set in sets {
        best = nearer(best, entry(near, *set));
    }
    best
}
