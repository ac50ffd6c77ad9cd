ghost use Rattle.std.specs.Prelude.{◌≡◌, ◌++◌, ◌∷◌, [], IfOk, IsTrue, OnOk, true};
ghost use Rattle.no_ir.specs.declared.instruction.Op.TheVariants as op;
ghost use Rattle.no_layout.specs.Text.{is_formed};
ghost use Rattle.no_semantics.specs.Sound.{table_holds};
ghost use Rattle.no_code.specs.Making.{AreLabels, AreStarts, Grows, PutsCases, Stays};
ghost use Rattle.no_code.specs.Source.{source};

use crate::code::{Case, Cell, Code};
use crate::constant::From;
use crate::edges::{Blocks, edge};
use crate::frame::Frame;
use crate::slot::{slot, small};
use no_ir::{Function, Instr, NoMemory, Operand};

fn put_case(code: &mut Code, one: Case) -> Result<(), NoMemory>
    ensures { OnOk result (code.new ≡ record code.old { cases = code.old.cases ++ one ∷ [] }) }
{
    code.cases.push(one)?;
    Ok(())
}

pub(crate) fn branch(
    from: From,
    g: &Function,
    blocks: Blocks,
    frame: Frame,
    code: &mut Code,
    i: &Instr,
    to: u32,
) -> Result<Cell, NoMemory>
    requires formed { IsTrue (is_formed from.layout.now) }
    requires table { table_holds from.layout.now from.sizes.now 0 from.program.now.types ≡ true }
    requires labels { AreLabels g.now blocks.labels.now }
    requires starts { AreStarts g.now frame.base blocks.starts.now }
    requires is { i.now.op ≡ op.Br to }
    ensures { IfOk result (λ c. Grows code.old code.new × Stays (source from.entry.program.now from.entry.layout.now from.entry.sizes.now from.entry.addresses.now) g.now frame code.new i.now c) }
{
    let e = edge(from, g, blocks, frame, code, to)?;
    Ok(Cell::Br(e))
}

pub(crate) fn branch_if(
    from: From,
    g: &Function,
    blocks: Blocks,
    frame: Frame,
    code: &mut Code,
    i: &Instr,
    a: &Operand,
    to: u32,
    other: u32,
) -> Result<Cell, NoMemory>
    requires formed { IsTrue (is_formed from.layout.now) }
    requires table { table_holds from.layout.now from.sizes.now 0 from.program.now.types ≡ true }
    requires labels { AreLabels g.now blocks.labels.now }
    requires starts { AreStarts g.now frame.base blocks.starts.now }
    requires is { i.now.op ≡ op.CondBr a.now to other }
    ensures { IfOk result (λ c. Grows code.old code.new × Stays (source from.entry.program.now from.entry.layout.now from.entry.sizes.now from.entry.addresses.now) g.now frame code.new i.now c) }
{
    let x = slot(from, frame.registers, code, 1, a)?;
    let e = edge(from, g, blocks, frame, code, to)?;
    let f = edge(from, g, blocks, frame, code, other)?;
    Ok(Cell::CondBr(x, e, f))
}

/// The cases of a switch.
fn cases(
    from: From,
    g: &Function,
    blocks: Blocks,
    frame: Frame,
    code: &mut Code,
    given: &[(u64, u32)],
) -> Result<(), NoMemory>
    requires formed { IsTrue (is_formed from.layout.now) }
    requires table { table_holds from.layout.now from.sizes.now 0 from.program.now.types ≡ true }
    requires labels { AreLabels g.now blocks.labels.now }
    requires starts { AreStarts g.now frame.base blocks.starts.now }
    ensures { OnOk result (PutsCases (source from.entry.program.now from.entry.layout.now from.entry.sizes.now from.entry.addresses.now) g.now frame code.old code.new given.now) }
{
    for one in given {
        let e = edge(from, g, blocks, frame, code, one.1)?;
        let case = Case {
            number: one.0,
            edge: e,
        };
        put_case(code, case)?;
    }
    Ok(())
}

pub(crate) fn switch(
    from: From,
    g: &Function,
    blocks: Blocks,
    frame: Frame,
    code: &mut Code,
    i: &Instr,
    w: u8,
    a: &Operand,
    default: u32,
    given: &[(u64, u32)],
) -> Result<Cell, NoMemory>
    requires formed { IsTrue (is_formed from.layout.now) }
    requires table { table_holds from.layout.now from.sizes.now 0 from.program.now.types ≡ true }
    requires labels { AreLabels g.now blocks.labels.now }
    requires starts { AreStarts g.now frame.base blocks.starts.now }
    requires is { i.now.op ≡ op.Switch w a.now default given.now }
    ensures { IfOk result (λ c. Grows code.old code.new × Stays (source from.entry.program.now from.entry.layout.now from.entry.sizes.now from.entry.addresses.now) g.now frame code.new i.now c) }
{
    let x = slot(from, frame.registers, code, w, a)?;
    let e = edge(from, g, blocks, frame, code, default)?;
    let first = small(code.cases.len())?;
    cases(from, g, blocks, frame, code, given)?;
    let last = small(code.cases.len())?;
    Ok(Cell::Switch(x, e, first, last))
}
