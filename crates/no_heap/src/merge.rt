ghost use Rattle.std.specs.Prelude.{◌≡◌, ◌+◌, ◌<◌, ◌≤◌, true, MatchOption, length, vec_capacity};
ghost use Rattle.no_heap.specs.Blocks.{AreLive, IsRising};
ghost use Rattle.no_heap.specs.Changes.{rises_from, told};
ghost use Rattle.no_heap.specs.Steps.{Puts, IsAdvance, IsStuck, Merges, PutsAll, first_of};

use crate::block::{Block, Entry, MOST_BLOCKS};

/// Writes over `out` what rising entries leave of blocks. False where an entry takes away what is not there, or
/// more than 65,536 blocks would be left.
#[tactic(auto, using(crate::proofs::Merging::merging_none, crate::proofs::Merging::merging_rising, crate::proofs::Merging::merging_more, crate::proofs::Merging::merging_stuck, crate::proofs::Merging::merging_end, crate::proofs::Merging::too_many))]
pub(crate) fn merge(out: &mut Vec<Block>, blocks: &[Block], entries: &[Entry]) -> bool
    requires live { AreLive blocks.now }
    requires rise { rises_from 0 entries.now ≡ true }
    requires room { MOST_BLOCKS ≤ vec_capacity out.old }
    ensures merged { Merges result (told blocks.now entries.now) out.new.items }
    ensures room { MOST_BLOCKS ≤ vec_capacity out.new }
{
    out.clear();
    let mut kept = 0;
    let mut told = 0;
    while told < entries.len() {
        let (_, rest) = blocks.split_at(kept);
        let Some(step) = advance(out, rest, entries[told]) else {
            return false;
        };
        kept += step.blocks;
        told += step.entries;
    }
    let (_, rest) = blocks.split_at(kept);
    put_all(out, rest)
}

/// How many blocks and entries one step is done with.
#[derive(Clone, Copy)]
struct Step {
    blocks: usize,
    entries: usize,
}

/// Puts the first of the blocks that are left, or that of the next entry, whichever is lower.
#[tactic(auto, using(crate::proofs::Merging::above_none, crate::proofs::Merging::above_first))]
fn advance(out: &mut Vec<Block>, kept: &[Block], entry: Entry) -> Option<Step>
    requires rising { IsRising 0 kept.now }
    requires room { MOST_BLOCKS ≤ vec_capacity out.old }
    ensures step { MatchOption result (IsStuck out.old.items kept.now entry) (λ step. IsAdvance out.old.items out.new.items kept.now entry step.blocks step.entries) }
    ensures room { MOST_BLOCKS ≤ vec_capacity out.new }
{
    if kept.is_empty() {
        return put_new(out, kept, entry);
    }
    if kept[0].at < entry.at {
        return keep(out, kept, entry);
    }
    if entry.at < kept[0].at {
        return put_new(out, kept, entry);
    }
    put_over(out, kept, entry)
}

/// Keeps the first block, which the entries say nothing of.
#[tactic(auto, using(crate::proofs::Merging::keep_put, crate::proofs::Merging::keep_full))]
fn keep(out: &mut Vec<Block>, kept: &[Block], entry: Entry) -> Option<Step>
    requires some { 0 < length kept.now }
    requires below { (first_of kept.now).at < entry.at }
    requires room { MOST_BLOCKS ≤ vec_capacity out.old }
    ensures step { MatchOption result (IsStuck out.old.items kept.now entry) (λ step. IsAdvance out.old.items out.new.items kept.now entry step.blocks step.entries) }
    ensures room { MOST_BLOCKS ≤ vec_capacity out.new }
{
    if put(out, kept[0]) {
        Some(Step {
            blocks: 1,
            entries: 0,
        })
    } else {
        None
    }
}

/// Puts an entry's block in front of all that are left.
#[tactic(auto, using(crate::proofs::Merging::new_put, crate::proofs::Merging::new_full, crate::proofs::Merging::new_absent))]
fn put_new(out: &mut Vec<Block>, kept: &[Block], entry: Entry) -> Option<Step>
    requires above { IsRising (entry.at + 1) kept.now }
    requires room { MOST_BLOCKS ≤ vec_capacity out.old }
    ensures step { MatchOption result (IsStuck out.old.items kept.now entry) (λ step. IsAdvance out.old.items out.new.items kept.now entry step.blocks step.entries) }
    ensures room { MOST_BLOCKS ≤ vec_capacity out.new }
{
    if entry.size == 0 {
        return None;
    }
    let block = Block {
        at: entry.at,
        size: entry.size,
    };
    if put(out, block) {
        Some(Step {
            blocks: 0,
            entries: 1,
        })
    } else {
        None
    }
}

/// Puts an entry's block in place of the first one, or takes that away.
#[tactic(auto, using(crate::proofs::Merging::over_put, crate::proofs::Merging::over_full, crate::proofs::Merging::over_gone))]
fn put_over(out: &mut Vec<Block>, kept: &[Block], entry: Entry) -> Option<Step>
    requires some { 0 < length kept.now }
    requires here { (first_of kept.now).at ≡ entry.at }
    requires rising { IsRising 0 kept.now }
    requires room { MOST_BLOCKS ≤ vec_capacity out.old }
    ensures step { MatchOption result (IsStuck out.old.items kept.now entry) (λ step. IsAdvance out.old.items out.new.items kept.now entry step.blocks step.entries) }
    ensures room { MOST_BLOCKS ≤ vec_capacity out.new }
{
    if entry.size == 0 {
        return Some(Step {
            blocks: 1,
            entries: 1,
        });
    }
    let block = Block {
        at: entry.at,
        size: entry.size,
    };
    if put(out, block) {
        Some(Step {
            blocks: 1,
            entries: 1,
        })
    } else {
        None
    }
}

/// Puts one block at the end, where there is room.
fn put(out: &mut Vec<Block>, block: Block) -> bool
    requires room { MOST_BLOCKS ≤ vec_capacity out.old }
    ensures put { Puts result out.old.items out.new.items block }
    ensures room { MOST_BLOCKS ≤ vec_capacity out.new }
{
    if out.len() >= MOST_BLOCKS {
        return false;
    }
    out.push(block).unwrap();
    true
}

/// Puts all blocks that are left at the end, where there is room.
fn put_all(out: &mut Vec<Block>, rest: &[Block]) -> bool
    requires room { MOST_BLOCKS ≤ vec_capacity out.old }
    ensures put { PutsAll result out.old.items out.new.items rest.now }
    ensures room { MOST_BLOCKS ≤ vec_capacity out.new }
{
    if out.len() > MOST_BLOCKS || rest.len() > MOST_BLOCKS - out.len() {
        return false;
    }
    out.extend_from_slice(rest).unwrap();
    true
}
