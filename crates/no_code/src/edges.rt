ghost use Rattle.std.specs.Prelude.{◌≡◌, ◌+◌, ◌<◌, ◌++◌, ◌∷◌, [], ℕ, IfOk, IsTrue, None, OnOk, Some, length, slice_get, true};
ghost use Rattle.std.specs.Option.{option_copied};
ghost use Rattle.no_ir.specs.declared.function.Block.{Block};
ghost use Rattle.no_ir.specs.declared.instruction.Op.TheVariants as op;
ghost use Rattle.no_layout.specs.Text.{is_formed};
ghost use Rattle.no_semantics.specs.Sound.{table_holds};
ghost use Rattle.no_code.specs.Coded.{IsFrom, IsMove, before, block_found, block_of, incoming, is_phi, phis};
ghost use Rattle.no_code.specs.Longer.{Adds};
ghost use Rattle.no_code.specs.Making.{AreLabels, AreStarts, EdgeStays, GrowsEdge, PutsMoves};
ghost use Rattle.no_code.specs.Source.{source};

use crate::code::{Code, Edge, Move};
use crate::constant::From;
use crate::frame::Frame;
use crate::slot::{into, slot, small};
use no_ir::{Block, Function, Instr, NoMemory, Op, Operand};
use no_semantics::width;

/// What is known of the blocks of a function: the first block of each label, and the first cell of each block.
#[derive(Clone, Copy)]
pub(crate) struct Blocks<'a> {
    pub labels: &'a [Option<u32>],
    pub starts: &'a [u32],
}

pub(crate) fn begins_phi(i: &Instr) -> bool
    ensures { result ≡ is_phi i.now.op }
{
    match &i.op {
        Op::Phi(_, _) => true,
        _ => false,
    }
}

/// What a phi takes behind the block of a label.
fn taken(label: u32, pairs: &[(Operand, u32)]) -> Option<&Operand>
    ensures { option_copied result ≡ incoming label pairs.now }
{
    for pair in pairs {
        if pair.1 == label {
            return Some(&pair.0);
        }
    }
    None
}

/// The slot of what a phi takes.
fn source_of(
    from: From,
    g: &Function,
    frame: Frame,
    code: &mut Code,
    i: &Instr,
) -> Result<u32, NoMemory>
    requires formed { IsTrue (is_formed from.layout.now) }
    requires table { table_holds from.layout.now from.sizes.now 0 from.program.now.types ≡ true }
    ensures { IfOk result (λ x. Adds code.old code.new × IsFrom (source from.entry.program.now from.entry.layout.now from.entry.sizes.now from.entry.addresses.now) frame.registers code.new g.now frame.base frame.label i.now.op x) }
{
    match &i.op {
        Op::Phi(t, pairs) => match taken(frame.label, pairs.as_slice()) {
            Some(operand) => slot(from, frame.registers, code, width(from.layout, t), operand),
            None => Ok(frame.registers),
        },
        _ => Ok(frame.registers),
    }
}

fn put_move(code: &mut Code, one: Move) -> Result<(), NoMemory>
    ensures { OnOk result (code.new ≡ record code.old { moves = code.old.moves ++ one ∷ [] }) }
{
    code.moves.push(one)?;
    Ok(())
}

/// What the phis of a block are given.
fn moves(
    from: From,
    g: &Function,
    frame: Frame,
    code: &mut Code,
    instrs: &[Instr],
) -> Result<(), NoMemory>
    requires formed { IsTrue (is_formed from.layout.now) }
    requires table { table_holds from.layout.now from.sizes.now 0 from.program.now.types ≡ true }
    ensures { OnOk result (PutsMoves (source from.entry.program.now from.entry.layout.now from.entry.sizes.now from.entry.addresses.now) g.now frame code.old code.new (phis instrs.now)) }
{
    for i in instrs {
        if !begins_phi(i) {
            return Ok(());
        }
        let x = source_of(from, g, frame, code, i)?;
        let one = Move {
            into: into(frame.registers, i.result),
            from: x,
        };
        put_move(code, one)?;
    }
    Ok(())
}

/// The first block of a label that the function doesn't name; a function that was read has none.
fn unnamed(g: &Function, to: u32) -> Result<Option<u32>, NoMemory>
    ensures { IfOk result (λ b. b ≡ block_of g.now to) }
{
    for (index, block) in g.blocks.as_slice().iter().enumerate() {
        if block.label == to {
            return Ok(Some(small(index)?));
        }
    }
    Ok(None)
}

/// The first block of a label.
fn block_of(g: &Function, labels: &[Option<u32>], to: u32) -> Result<Option<u32>, NoMemory>
    requires { AreLabels g.now labels.now }
    ensures { IfOk result (λ b. b ≡ block_of g.now to) }
{
    if (to as usize) < g.labels.len() {
        match labels.get(to as usize) {
            Some(block) => Ok(*block),
            None => Ok(None),
        }
    } else {
        unnamed(g, to)
    }
}

/// The first cell of a block.
fn start_of(g: &Function, starts: &[u32], base: u32, b: u32, block: &Block) -> u32
    requires starts { AreStarts g.now base starts.now }
    requires is { slice_get g.now.blocks b ≡ Some block.now }
    ensures { result ≡ base + before g.now.blocks b }
{
    match starts.get(b as usize) {
        Some(start) => *start,
        None => 0,
    }
}

fn put_edge(code: &mut Code, edge: Edge) -> Result<u32, NoMemory>
    ensures { IfOk result (λ e. (code.new ≡ record code.old { edges = code.old.edges ++ edge ∷ [] }) × (e ≡ length code.old.edges)) }
{
    let number = small(code.edges.len())?;
    code.edges.push(edge)?;
    Ok(number)
}

/// The edge to a label that no block has.
fn edge_nowhere(
    from: From,
    g: &Function,
    frame: Frame,
    code: &mut Code,
    to: u32,
) -> Result<u32, NoMemory>
    requires nowhere { block_found g.now (block_of g.now to) ≡ None }
    ensures { IfOk result (λ e. GrowsEdge code.old code.new × EdgeStays (source from.entry.program.now from.entry.layout.now from.entry.sizes.now from.entry.addresses.now) g.now frame code.new to e) }
{
    let at = small(code.moves.len())?;
    let one = Edge {
        target: 0,
        from: at,
        to: at,
    };
    let e = put_edge(code, one)?;
    Ok(e)
}

/// The edge to a block.
fn edge_to(
    from: From,
    g: &Function,
    starts: &[u32],
    frame: Frame,
    code: &mut Code,
    to: u32,
    b: u32,
    block: &Block,
) -> Result<u32, NoMemory>
    requires formed { IsTrue (is_formed from.layout.now) }
    requires table { table_holds from.layout.now from.sizes.now 0 from.program.now.types ≡ true }
    requires starts { AreStarts g.now frame.base starts.now }
    requires is { slice_get g.now.blocks b ≡ Some block.now }
    requires leads { Some b ≡ block_of g.now to }
    ensures { IfOk result (λ e. GrowsEdge code.old code.new × EdgeStays (source from.entry.program.now from.entry.layout.now from.entry.sizes.now from.entry.addresses.now) g.now frame code.new to e) }
{
    let first = small(code.moves.len())?;
    moves(from, g, frame, code, block.instrs.as_slice())?;
    let last = small(code.moves.len())?;
    let start = start_of(g, starts, frame.base, b, block);
    let target = small(start as usize + code.moves.len() - first as usize)?;
    let one = Edge {
        target,
        from: first,
        to: last,
    };
    let e = put_edge(code, one)?;
    Ok(e)
}

/// The edge to a label.
pub(crate) fn edge(
    from: From,
    g: &Function,
    blocks: Blocks,
    frame: Frame,
    code: &mut Code,
    to: u32,
) -> Result<u32, NoMemory>
    requires formed { IsTrue (is_formed from.layout.now) }
    requires table { table_holds from.layout.now from.sizes.now 0 from.program.now.types ≡ true }
    requires labels { AreLabels g.now blocks.labels.now }
    requires starts { AreStarts g.now frame.base blocks.starts.now }
    ensures { IfOk result (λ e. GrowsEdge code.old code.new × EdgeStays (source from.entry.program.now from.entry.layout.now from.entry.sizes.now from.entry.addresses.now) g.now frame code.new to e) }
{
    match block_of(g, blocks.labels, to)? {
        Some(b) => match g.blocks.get(b as usize) {
            Some(block) => edge_to(from, g, blocks.starts, frame, code, to, b, block),
            None => edge_nowhere(from, g, frame, code, to),
        },
        None => edge_nowhere(from, g, frame, code, to),
    }
}
