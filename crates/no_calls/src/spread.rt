ghost use Rattle.std.specs.Prelude.{◌≡◌, ℕ, ◌+◌, ◌<◌, ◌≤◌, ◌^◌, List, [], ◌∷◌, IfOk, OnOk, length, replicate, vec_len, None};
ghost use Rattle.std.specs.List.{Contains};
ghost use Rattle.no_calls.specs.Rows.{AreBelow, row};
ghost use Rattle.no_calls.specs.Spreading.{IsFound, Marked, Measured, Noted, Reason, Step, Turning, is_done, unmet};

use crate::found::{Found, meet, meet_all};
use crate::rows::row_of;
use no_ir::NoMemory;
use std::alloc::Global;
use std::mem;

/// A set that is used: its members are met, unless it was used before.
fn visit(
    down: &[Vec<u32>],
    set: u32,
    done: &mut [bool],
    found: &mut Found,
    level: u32,
) -> Result<(), NoMemory>
    requires set { set < length done.old }
    requires below { AreBelow down.now (length found.old.far.items) }
    ensures noted { OnOk result (Noted (Reason (set ∷ []) down.now) level found.old found.new) }
    ensures marked { OnOk result (Marked (set ∷ []) down.now found.new done.old done.new) }
{
    let at = set as usize;
    if done[at] {
        return Ok(());
    }
    done[at] = true;
    meet_all(found, row_of(down, at), level)?;
    Ok(())
}

/// The sets that a number uses.
fn visit_all(
    down: &[Vec<u32>],
    sets: &[u32],
    done: &mut [bool],
    found: &mut Found,
    level: u32,
) -> Result<(), NoMemory>
    requires sets { (s : ℕ) → Contains sets.now s → s < length done.old }
    requires below { AreBelow down.now (length found.old.far.items) }
    ensures noted { OnOk result (Noted (Reason sets.now down.now) level found.old found.new) }
    ensures marked { OnOk result (Marked sets.now down.now found.new done.old done.new) }
{
    for set in sets {
        visit(down, *set, done, found, level)?;
    }
    Ok(())
}

/// What the numbers at a distance lead to is met.
fn pass(
    up: &[Vec<u32>],
    down: &[Vec<u32>],
    waiting: &[u32],
    done: &mut [bool],
    found: &mut Found,
    level: u32,
) -> Result<(), NoMemory>
    requires room { level + 1 < 2 ^ 32 }
    requires sets { AreBelow up.now (length done.old) }
    requires below { AreBelow down.now (length found.old.far.items) }
    ensures noted { OnOk result (Noted (λ _. Unit {0}) (level + 1) found.old found.new) }
    ensures wide { length done.new ≡ length done.old }
    ensures turning { (starts : List ℕ) (n : ℕ) → Turning up.now down.now starts n level waiting.now done.old found.old → OnOk result (Turning up.now down.now starts n level [] done.new found.new) }
{
    for number in waiting {
        let sets = row_of(up, *number as usize);
        visit_all(down, sets, done, found, level + 1)?;
    }
    Ok(())
}

/// Goes on from level to level, until nothing waits.
fn settle(
    alloc: Global,
    up: &[Vec<u32>],
    down: &[Vec<u32>],
    mut waiting: Vec<u32>,
    done: &mut [bool],
    found: &mut Found,
) -> Result<(), NoMemory>
    requires room { unmet found.old.far.items + vec_len waiting ≤ length found.old.far.items }
    requires short { length found.old.far.items < 2 ^ 32 }
    requires none { found.old.next.items ≡ [] }
    requires sets { AreBelow up.now (length done.old) }
    requires below { AreBelow down.now (length found.old.far.items) }
    ensures { (starts : List ℕ) (n : ℕ) → Turning up.now down.now starts n 0 waiting.items done.old found.old → OnOk result (Measured (Step up.now down.now) starts n found.new.far.items) }
{
    let mut level = 0;
    while !waiting.is_empty() {
        pass(up, down, waiting.as_slice(), done, found, level)?;
        level += 1;
        waiting = mem::replace(&mut found.next, Vec::new(alloc));
    }
    Ok(())
}

/// A start is met, if there is such a number.
fn begin_at(start: u32, found: &mut Found) -> Result<(), NoMemory>
    ensures noted { OnOk result (Noted (λ b. b ≡ start) 0 found.old found.new) }
    ensures there { OnOk result (start < length found.old.far.items → IsFound found.new.far.items start) }
{
    if start as usize >= found.far.len() {
        return Ok(());
    }
    meet(found, start, 0)?;
    Ok(())
}

/// The starts that are there are met.
fn begin(starts: &[u32], found: &mut Found) -> Result<(), NoMemory>
    ensures noted { OnOk result (Noted (Contains starts.now) 0 found.old found.new) }
    ensures there { OnOk result ((k : ℕ) → k < length found.old.far.items → Contains starts.now k → IsFound found.new.far.items k) }
{
    for start in starts {
        begin_at(*start, found)?;
    }
    Ok(())
}

/// So many numbers that were not found.
fn unfound(alloc: Global, count: usize) -> Result<Vec<Option<u32>>, NoMemory>
    ensures { IfOk result (λ far. far.items ≡ replicate count None) }
{
    let mut far = Vec::new(alloc);
    for _ in 0..count {
        far.push(None)?;
    }
    Ok(far)
}

/// How far each number is from the starts, in steps to a set that it uses (`up`) and on to a member of this (`down`).
pub(crate) fn spread(
    alloc: Global,
    up: &[Vec<u32>],
    down: &[Vec<u32>],
    starts: &[u32],
) -> Result<Vec<Option<u32>>, NoMemory>
    requires short { length up.now < 2 ^ 32 }
    requires sets { AreBelow up.now (length down.now) }
    requires below { AreBelow down.now (length up.now) }
    ensures { IfOk result (λ far. Measured (Step up.now down.now) starts.now (length up.now) far.items) }
{
    let far = unfound(alloc, up.len())?;
    let mut done = vec![in alloc; false; down.len()]?;
    let mut found = Found {
        far,
        next: Vec::new(alloc),
    };
    begin(starts, &mut found)?;
    let waiting = mem::replace(&mut found.next, Vec::new(alloc));
    settle(alloc, up, down, waiting, &mut done, &mut found)?;
    let Found { far, .. } = found;
    Ok(far)
}
