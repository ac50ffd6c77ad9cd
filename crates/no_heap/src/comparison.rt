ghost use Rattle.std.specs.Prelude.{◌≡◌, ◌+◌, ◌<◌, ◌≤◌, ◌++◌, length, IfOk, OnOk};
ghost use Rattle.std.specs.Option.{option_to_list};
ghost use Rattle.no_heap.specs.Blocks.{AreLive, IsRising};
ghost use Rattle.no_heap.specs.Changes.{AreChanges};
ghost use Rattle.no_heap.specs.Steps.{IsCompared, first_of};

use crate::block::{Block, Entry};
use no_ir::{List, NoMemory};
use std::alloc::Global;

/// One entry for each place at which two lists of blocks differ, rising by place.
#[tactic(auto, using(crate::proofs::Comparing::comparing_none, crate::proofs::Comparing::comparing_more, crate::proofs::Comparing::comparing_rising, crate::proofs::Comparing::comparing_rising_since, crate::proofs::Comparing::comparing_end))]
pub(crate) fn compare(
    alloc: Global,
    now: &[Block],
    since: &[Block],
) -> Result<List<Entry>, NoMemory>
    requires live { AreLive now.now }
    requires was_live { AreLive since.now }
    ensures { IfOk result (AreChanges now.now since.now) }
{
    let mut told = List::new(alloc);
    let mut at = 0;
    let mut was = 0;
    while at + was < now.len() + since.len() {
        let (_, left) = now.split_at(at);
        let (_, left_since) = since.split_at(was);
        let step = meet(left, left_since);
        tell(&mut told, step.entry)?;
        at += step.now;
        was += step.since;
    }
    Ok(told)
}

/// Adds an entry, where there is one.
fn tell(told: &mut List<Entry>, entry: Option<Entry>) -> Result<(), NoMemory>
    ensures { OnOk result (told.new ≡ told.old ++ option_to_list entry) }
{
    if let Some(entry) = entry {
        told.push(entry)?;
    }
    Ok(())
}

/// What the lowest place of two lists tells, and how many blocks of each are at it.
#[derive(Clone, Copy)]
struct Step {
    entry: Option<Entry>,
    now: usize,
    since: usize,
}

/// Compares the lowest place of two lists, of which one has a block.
#[tactic(auto, using(crate::proofs::Merging::above_none, crate::proofs::Merging::above_first))]
fn meet(now: &[Block], since: &[Block]) -> Step
    requires some { 0 < length now.now + length since.now }
    requires rising { IsRising 0 now.now }
    requires rising_since { IsRising 0 since.now }
    ensures { IsCompared now.now since.now result.entry result.now result.since }
{
    if now.is_empty() {
        return gone(now, since);
    }
    if since.is_empty() {
        return new(now, since);
    }
    if now[0].at < since[0].at {
        return new(now, since);
    }
    if since[0].at < now[0].at {
        return gone(now, since);
    }
    both(now, since)
}

/// A block that was not there.
#[tactic(auto, using(crate::proofs::Comparing::is_new))]
fn new(now: &[Block], since: &[Block]) -> Step
    requires some { 0 < length now.now }
    requires rising { IsRising 0 now.now }
    requires above { IsRising ((first_of now.now).at + 1) since.now }
    ensures { IsCompared now.now since.now result.entry result.now result.since }
{
    let entry = Entry {
        at: now[0].at,
        size: now[0].size,
    };
    Step {
        entry: Some(entry),
        now: 1,
        since: 0,
    }
}

/// A block that is no longer there.
#[tactic(auto, using(crate::proofs::Comparing::is_gone))]
fn gone(now: &[Block], since: &[Block]) -> Step
    requires some { 0 < length since.now }
    requires rising { IsRising 0 since.now }
    requires above { IsRising ((first_of since.now).at + 1) now.now }
    ensures { IsCompared now.now since.now result.entry result.now result.since }
{
    let entry = Entry {
        at: since[0].at,
        size: 0,
    };
    Step {
        entry: Some(entry),
        now: 0,
        since: 1,
    }
}

/// A block that was there, of the same size or another.
#[tactic(auto, using(crate::proofs::Comparing::is_same, crate::proofs::Comparing::is_changed))]
fn both(now: &[Block], since: &[Block]) -> Step
    requires some { 0 < length now.now }
    requires some_since { 0 < length since.now }
    requires rising { IsRising 0 now.now }
    requires rising_since { IsRising 0 since.now }
    requires same { (first_of now.now).at ≡ (first_of since.now).at }
    ensures { IsCompared now.now since.now result.entry result.now result.since }
{
    if now[0].size == since[0].size {
        return Step {
            entry: None,
            now: 1,
            since: 1,
        };
    }
    let entry = Entry {
        at: now[0].at,
        size: now[0].size,
    };
    Step {
        entry: Some(entry),
        now: 1,
        since: 1,
    }
}
