ghost use Rattle.std.specs.Prelude.{◌≡◌, ℕ, ◌-◌, ◌<◌, [], ◌∷◌, ◌++◌, IfOk, OnOk, length, slice_get, vec_len};
ghost use Rattle.std.specs.List.{filter_map};
ghost use Rattle.no_module.specs.Instructions.{exits_in};
ghost use Rattle.no_module.specs.Left.{labels_left};
ghost use Rattle.no_verify_paths.specs.Paths.{successors};
ghost use Rattle.no_verify_paths.specs.Flow.{row};
ghost use Rattle.no_verify_paths.specs.Survey.{IsLabels, at};

use crate::rows::find;
use no_ir::{Function, Instr, NoMemory};
use no_module::Labels;
use std::alloc::Global;

/// Adds the block of a label. One that no block has leads nowhere.
fn add_block(label: u32, labels: &[Option<u32>], blocks: &mut Vec<u32>) -> Result<(), NoMemory>
    ensures { OnOk result (blocks.new.items ≡ blocks.old.items ++ filter_map (at labels.now) (label ∷ [])) }
{
    if let Some(block) = find(labels, label) {
        blocks.push(block)?;
    }
    Ok(())
}

/// The blocks of labels.
#[tactic(auto, using(crate::proofs::Taking::labels_taken))]
fn resolve(alloc: Global, named: Labels<'_>, labels: &[Option<u32>]) -> Result<Vec<u32>, NoMemory>
    ensures { IfOk result (λ blocks. blocks.items ≡ filter_map (at labels.now) (labels_left named.entry)) }
{
    let mut blocks = Vec::new(alloc);
    let mut left = named;
    while let Some((label, more)) = left.split_first() {
        add_block(label, labels, &mut blocks)?;
        left = more;
    }
    Ok(blocks)
}

/// The successors of a block with this code.
fn successors_of(
    alloc: Global,
    code: &[Instr],
    labels: &[Option<u32>],
) -> Result<Vec<u32>, NoMemory>
    ensures { IfOk result (λ blocks. blocks.items ≡ filter_map (at labels.now) (exits_in (slice_get code.now (length code.now - 1)))) }
{
    match code.last() {
        Some(instr) => resolve(alloc, Labels::exits(&instr.op), labels),
        None => Ok(Vec::new(alloc)),
    }
}

/// The successors of each block.
pub(crate) fn graph(
    alloc: Global,
    function: &Function,
    labels: &[Option<u32>],
) -> Result<Vec<Vec<u32>>, NoMemory>
    requires { IsLabels function.now labels.now }
    ensures width { IfOk result (λ next. vec_len next ≡ length function.now.blocks) }
    ensures edges { IfOk result (λ next. (a : ℕ) → a < length function.now.blocks → row next.items a ≡ successors function.now a) }
{
    let mut next = Vec::new(alloc);
    for block in function.blocks.as_slice() {
        next.push(successors_of(alloc, block.instrs.as_slice(), labels)?)?;
    }
    Ok(next)
}
