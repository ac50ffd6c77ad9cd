ghost use Rattle.std.specs.Prelude.{◌≡◌, ◌<◌, ◌≤◌, IfOk, None, Some, length, replicate, slice_set};
ghost use Rattle.no_code.specs.Making.{AreLabels, AreStarts};

use crate::slot::small;
use no_ir::{Function, List, NoMemory};
use std::alloc::Global;

/// As many entries with no block.
fn unknown(alloc: Global, count: usize) -> Result<List<Option<u32>>, NoMemory>
    ensures { IfOk result (λ t. t ≡ replicate count None) }
{
    let mut table = List::new(alloc);
    for _ in 0..count {
        table.push(None)?;
    }
    Ok(table)
}

/// Notes a block for its label.
fn note(table: &mut List<Option<u32>>, label: u32, number: u32)
    ensures noted { label < length table.old → table.new ≡ slice_set table.old label (Some number) }
    ensures other { length table.old ≤ label → table.new ≡ table.old }
{
    if (label as usize) < table.len() {
        table.set(label as usize, Some(number));
    }
}

/// The first block of each label of a function.
pub(crate) fn labels(alloc: Global, g: &Function) -> Result<List<Option<u32>>, NoMemory>
    ensures { IfOk result (λ t. AreLabels g.now t) }
{
    let mut table = unknown(alloc, g.labels.len())?;
    let blocks = g.blocks.as_slice();
    let mut k = blocks.len();
    while k > 0 {
        k -= 1;
        let number = small(k)?;
        note(&mut table, blocks[k].label, number);
    }
    Ok(table)
}

/// The first cell of each block of a function.
pub(crate) fn starts(alloc: Global, g: &Function, base: u32) -> Result<List<u32>, NoMemory>
    ensures { IfOk result (λ t. AreStarts g.now base t) }
{
    let mut table = List::new(alloc);
    let mut at = base;
    for block in g.blocks.as_slice() {
        table.push(at)?;
        let count = small(block.instrs.len())?;
        at = small(at as usize + count as usize)?;
    }
    Ok(table)
}
