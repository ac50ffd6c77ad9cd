ghost use Rattle.std.specs.Prelude.{◌≡◌, ◌∷◌, ◌+◌, ℕ, [], IfOk, OnOk, None, Some, nat_eq, replicate, slice_get, take};
ghost use Rattle.std.specs.List.{fold, list_all};
ghost use Rattle.std.specs.Option.{option_copied};
ghost use Rattle.indexmap.specs.IndexMap.{get};
ghost use Rattle.no_verify_structure.specs.Edges.{AreFirst, entry_of, first_pair, pair_at, table_of, with_edge, with_exits};
ghost use Rattle.no_verify_structure.specs.Finding.{first_at, first_place};
ghost use Rattle.no_verify_structure.specs.Names.{is_in};
ghost use Rattle.no_module.specs.Instructions.{exits_of, pair_labels};
ghost use Rattle.no_verify_structure.specs.Phis.{agrees, block_exits, block_phis, function_phis, op_meets, pair_of, pairs_agree, phi_allowed, phis_meet, phis_of, predecessors, same_labels};

use crate::finding::fault_place;
use crate::numbers::Numbers;
use indexmap::IndexMap;
use no_ir::{Block, Function, Instr, Module, NoMemory, Op, Operand};
use no_module::{Labels, is_phi, same_operand};
use no_verify_types::FaultPlace;
use std::alloc::Global;

/// A table in which nothing leads to any of so many labels.
fn empty_table(alloc: Global, count: usize) -> Result<Vec<Numbers>, NoMemory>
    ensures { IfOk result (λ table. table.items ≡ replicate count []) }
{
    let mut table = Vec::new(alloc);
    for _ in 0..count {
        table.push(Numbers::new(alloc))?;
    }
    Ok(table)
}

/// Puts in that a label leads to another.
fn put_edge(table: &mut [Numbers], from: u32, to: u32) -> Result<(), NoMemory>
    ensures { OnOk result (table.new ≡ with_edge from table.old to) }
{
    let to = to as usize;
    if to < table.len() {
        let _new = table[to].put(from)?;
    }
    Ok(())
}

/// Puts in that a label leads to all labels of a terminator.
fn put_exits(table: &mut [Numbers], from: u32, op: &Op) -> Result<(), NoMemory>
    ensures { OnOk result (table.new ≡ fold (with_edge from) table.old (exits_of op.now)) }
{
    let mut left = Labels::exits(op);
    while let Some((label, more)) = left.split_first() {
        put_edge(table, from, label)?;
        left = more;
    }
    Ok(())
}

fn put_block(table: &mut [Numbers], block: &Block) -> Result<(), NoMemory>
    ensures { OnOk result (table.new ≡ with_exits table.old block.now) }
{
    match block.instrs.as_slice().last() {
        None => Ok(()),
        Some(instr) => put_exits(table, block.label, &instr.op),
    }
}

fn put_blocks(table: &mut [Numbers], blocks: &[Block]) -> Result<(), NoMemory>
    ensures { OnOk result (table.new ≡ fold with_exits table.old blocks.now) }
{
    for block in blocks {
        put_block(table, block)?;
    }
    Ok(())
}

/// The labels that lead to each label of a function.
fn table(alloc: Global, function: &Function) -> Result<Vec<Numbers>, NoMemory>
    ensures { IfOk result (λ table. table.items ≡ table_of function.now) }
{
    let mut table = empty_table(alloc, function.labels.len())?;
    put_blocks(table.as_mut_slice(), function.blocks.as_slice())?;
    Ok(table)
}

/// What leads to a label.
fn entry<'a>(table: &'a [Numbers], none: &'a Numbers, label: u32) -> &'a Numbers
    requires { none.now ≡ [] }
    ensures { result.now ≡ entry_of (slice_get table.now label) }
{
    match table.get(label as usize) {
        None => none,
        Some(before) => before,
    }
}

/// The labels of a phi.
fn phi_labels(alloc: Global, pairs: &[(Operand, u32)]) -> Result<Numbers, NoMemory>
    ensures { IfOk result (λ all. (l : ℕ) → is_in all l ≡ is_in (pair_labels pairs.now) l) }
{
    let mut all = Numbers::new(alloc);
    for pair in pairs {
        let _new = all.put(pair.1)?;
    }
    Ok(all)
}

/// Whether the labels of a phi are just these.
#[tactic(auto, using(crate::proofs::Members::same_tests))]
fn same_labels(alloc: Global, before: &Numbers, pairs: &[(Operand, u32)]) -> Result<bool, NoMemory>
    ensures { IfOk result (λ same. same ≡ same_labels (pair_labels pairs.now) before.now) }
{
    let labels = phi_labels(alloc, pairs)?;
    Ok(before.has_each(Labels::Pairs(pairs)) && before.are_in(&labels))
}

/// The first pair with a label, by the table of the first ones.
fn first_pair<'a>(
    firsts: &IndexMap<u32, usize>,
    pairs: &'a [(Operand, u32)],
    label: u32,
) -> Option<&'a (Operand, u32)>
    ensures { option_copied result ≡ pair_at pairs.now (get nat_eq firsts.now label) }
{
    match firsts.get(&label) {
        None => None,
        Some(i) => pairs.get(*i),
    }
}

/// Whether a pair agrees with the first one with its label. One that is the first is put in.
fn pair_agrees(
    firsts: &mut IndexMap<u32, usize>,
    pairs: &[(Operand, u32)],
    i: usize,
    pair: &(Operand, u32),
) -> Result<bool, NoMemory>
    ensures agrees { IfOk result (λ b. b ≡ agrees (pair_at pairs.now (get nat_eq firsts.old pair.now.1)) pair.now.0) }
    ensures kept { OnOk result ((l : ℕ) → get nat_eq firsts.new l ≡ first_pair pairs.now i pair.now.1 (get nat_eq firsts.old l) (get nat_eq firsts.old pair.now.1) l) }
{
    match first_pair(firsts, pairs, pair.1) {
        Some(first) => Ok(same_operand(&first.0, &pair.0)),
        None => {
            firsts.insert(pair.1, i)?;
            Ok(true)
        }
    }
}

/// Whether pair i agrees with the first one with its label among those before it, which the table has.
fn see_pair(
    firsts: &mut IndexMap<u32, usize>,
    pairs: &[(Operand, u32)],
    i: usize,
    pair: &(Operand, u32),
) -> Result<bool, NoMemory>
    requires pair { slice_get pairs.now i ≡ Some pair.now }
    requires firsts { AreFirst pairs.now i (get nat_eq firsts.old) }
    ensures agrees { IfOk result (λ b. b ≡ agrees (pair_of (take i pairs.now) pair.now.1) pair.now.0) }
    ensures firsts { OnOk result (AreFirst pairs.now (i + 1) (get nat_eq firsts.new)) }
{
    let agrees = pair_agrees(firsts, pairs, i, pair)?;
    Ok(agrees)
}

/// Whether each label of a phi has one operand.
fn pairs_agree(alloc: Global, pairs: &[(Operand, u32)]) -> Result<bool, NoMemory>
    ensures { IfOk result (λ agree. agree ≡ pairs_agree pairs.now) }
{
    let mut firsts = IndexMap::new(alloc);
    for (i, pair) in pairs.iter().enumerate() {
        if !see_pair(&mut firsts, pairs, i, pair)? {
            return Ok(false);
        }
    }
    Ok(true)
}

/// Whether an instruction is no phi, or one that stands where it may and meets these predecessors.
fn op_meets(alloc: Global, before: &Numbers, allowed: bool, op: &Op) -> Result<bool, NoMemory>
    ensures { IfOk result (λ meets. meets ≡ op_meets before.now allowed op.now) }
{
    match op {
        Op::Phi(_, pairs) => {
            let pairs = pairs.as_slice();
            let same = same_labels(alloc, before, pairs)?;
            let agree = pairs_agree(alloc, pairs)?;
            Ok(allowed && (same && agree))
        }
        _ => Ok(true),
    }
}

/// The first phi of block b that does not meet these predecessors.
fn phis_meet(
    alloc: Global,
    before: &Numbers,
    b: usize,
    instrs: &[Instr],
) -> Result<Option<usize>, NoMemory>
    ensures { IfOk result (λ first. first ≡ phis_meet before.now b instrs.now) }
{
    let mut allowed = b > 0;
    for (i, instr) in instrs.iter().enumerate() {
        if !op_meets(alloc, before, allowed, &instr.op)? {
            return Ok(Some(i));
        }
        allowed = allowed && is_phi(&instr.op);
    }
    Ok(None)
}

/// The first phi of block b that does not meet the edges that lead there.
#[tactic(auto, using(crate::proofs::Edges::entry_meets))]
fn block_phis(
    alloc: Global,
    table: &[Numbers],
    function: &Function,
    b: usize,
    block: &Block,
) -> Result<Option<usize>, NoMemory>
    requires { table.now ≡ table_of function.now }
    ensures { IfOk result (λ first. first ≡ block_phis function.now b block.now) }
{
    let none = Numbers::new(alloc);
    let before = entry(table, &none, block.label);
    phis_meet(alloc, before, b, block.instrs.as_slice())
}

fn blocks_phis(
    alloc: Global,
    table: &[Numbers],
    function: &Function,
) -> Result<Option<(usize, usize)>, NoMemory>
    requires { table.now ≡ table_of function.now }
    ensures { IfOk result (λ first. first ≡ first_at (block_phis function.now) 0 function.now.blocks) }
{
    for (b, block) in function.blocks.as_slice().iter().enumerate() {
        if let Some(i) = block_phis(alloc, table, function, b, block)? {
            return Ok(Some((b, i)));
        }
    }
    Ok(None)
}

fn function_phis(alloc: Global, function: &Function) -> Result<Option<(usize, usize)>, NoMemory>
    ensures { IfOk result (λ first. first ≡ function_phis function.now) }
{
    let table = table(alloc, function)?;
    blocks_phis(alloc, table.as_slice(), function)
}

/// Where a phi of a module first does not meet the edges that lead to its block: it stands in the entry block or behind
/// another instruction, its labels are not those of the predecessors, or a label has two operands.
pub fn phis_fault(alloc: Global, program: &Module) -> Result<Option<FaultPlace>, NoMemory>
    ensures { IfOk result (λ p. p ≡ phis_of program.now) }
{
    for (k, function) in program.functions.as_slice().iter().enumerate() {
        if let Some((b, i)) = function_phis(alloc, function)? {
            return Ok(Some(fault_place(k, b, i)?));
        }
    }
    Ok(None)
}
