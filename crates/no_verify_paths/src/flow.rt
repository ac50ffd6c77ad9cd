ghost use Rattle.std.specs.Prelude.{◌≡◌, ℕ, ◌-◌, ◌^◌, ◌<◌, ◌∷◌, [], length, vec_len, slice_index, OnOk, IfOk};
ghost use Rattle.std.specs.List.{All, Contains};
ghost use Rattle.no_verify_paths.specs.Flow.{Flowing, IsGraph, Passed, Settled, row};

use crate::queue::Queue;
use crate::words::{join, meet};
use no_ir::NoMemory;
use std::alloc::Global;

/// Meets the set of one block with that of another's end.
fn narrow(target: u32, out: u64, sets: &mut [u64], queue: &mut Queue) -> Result<(), NoMemory>
    requires within { target < length sets.old }
    requires room { queue.old.room ≡ length sets.old }
    ensures { OnOk result (Passed (target ∷ []) out sets.old sets.new queue.old queue.new) }
{
    let held = sets[target as usize];
    let both = meet(held, out);
    if both == held {
        return Ok(());
    }
    sets[target as usize] = both;
    queue.add(target)
}

/// Meets the sets of a block's successors with that of its end.
fn pass(targets: &[u32], out: u64, sets: &mut [u64], queue: &mut Queue) -> Result<(), NoMemory>
    requires within { All (λ t. t < length sets.old) targets.now }
    requires room { queue.old.room ≡ length sets.old }
    ensures { OnOk result (Passed targets.now out sets.old sets.new queue.old queue.new) }
{
    for target in targets {
        narrow(*target, out, sets, queue)?;
    }
    Ok(())
}

/// Looks at each block that waits, until none does.
fn settle(
    next: &[Vec<u32>],
    gens: &[u64],
    sets: &mut [u64],
    queue: &mut Queue,
) -> Result<(), NoMemory>
    requires edges { IsGraph next.now (length sets.old) }
    requires wide { length gens.now ≡ length sets.old }
    requires room { queue.old.room ≡ length sets.old }
    ensures { (start : ℕ) → Flowing (row next.now) gens.now start sets.old queue.old → OnOk result (Settled (row next.now) gens.now start sets.new) }
{
    while let Some(block) = queue.take() {
        let at = block as usize;
        let out = join(sets[at], gens[at]);
        pass(next[at].as_slice(), out, sets, queue)?;
    }
    Ok(())
}

/// Makes each block wait, the entry as the next one.
fn fill(queue: &mut Queue, count: u32) -> Result<(), NoMemory>
    requires some { 0 < count }
    requires room { queue.old.room ≡ count }
    ensures { OnOk result (Contains queue.new.blocks 0 × (queue.new.room ≡ count)) }
{
    for k in 1..count {
        queue.add(count - k)?;
    }
    queue.add(0)
}

/// Lets the sets settle, from full ones, and from what the entry begins with.
fn run(
    alloc: Global,
    next: &[Vec<u32>],
    gens: &[u64],
    start: u64,
    sets: &mut [u64],
) -> Result<(), NoMemory>
    requires some { (0 < length sets.old) × (length sets.old < 2 ^ 32) }
    requires edges { IsGraph next.now (length sets.old) }
    requires wide { length gens.now ≡ length sets.old }
    requires full { All (λ w. w ≡ 2 ^ 64 - 1) sets.old }
    ensures { OnOk result (Settled (row next.now) gens.now start sets.new) }
{
    let count = sets.len();
    sets[0] = start;
    let mut queue = Queue::new(alloc, count)?;
    fill(&mut queue, count as u32)?;
    settle(next, gens, sets, &mut queue)
}

/// For each block the members that every path from the entry to its beginning has.
///
/// `next` has the successors of each block, `gens` the set that each block adds, and `start` that with which the
/// entry begins. The set of a block that no path leads to is full.
pub(crate) fn solve(
    alloc: Global,
    next: &[Vec<u32>],
    gens: &[u64],
    start: u64,
) -> Result<Vec<u64>, NoMemory>
    requires some { (0 < length gens.now) × (length gens.now < 2 ^ 32) }
    requires edges { IsGraph next.now (length gens.now) }
    ensures settled { IfOk result (λ sets. Settled (row next.now) gens.now start sets.items) }
    ensures wide { IfOk result (λ sets. vec_len sets ≡ length gens.now) }
{
    let mut sets = vec![in alloc; u64::MAX; gens.len()]?;
    run(alloc, next, gens, start, &mut sets)?;
    Ok(sets)
}
