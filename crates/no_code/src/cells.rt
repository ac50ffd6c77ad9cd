ghost use Rattle.std.specs.Prelude.{◌≡◌, ◌++◌, ◌∷◌, [], IfOk, IsTrue, OnOk, true};
ghost use Rattle.no_layout.specs.Text.{is_formed};
ghost use Rattle.no_semantics.specs.Sound.{table_holds};
ghost use Rattle.no_code.specs.Coded.{IsCell};
ghost use Rattle.no_code.specs.Making.{AreLabels, AreStarts, Grows, PutsCell, Stays};
ghost use Rattle.no_code.specs.Source.{source};

use crate::calls::call;
use crate::code::{Cell, Code, Place};
use crate::constant::From;
use crate::control::{branch, branch_if, switch};
use crate::edges::Blocks;
use crate::frame::Frame;
use crate::paths::{allocate, step_into};
use crate::plain::{binary, compare, convert, freeze, leave, load, select, store};
use no_ir::{Function, Instr, NoMemory, Op};

/// A cell that needs no table.
fn alone(
    from: From,
    g: &Function,
    frame: Frame,
    code: &mut Code,
    i: &Instr,
    cell: Cell,
) -> Result<Cell, NoMemory>
    requires { (later : Code) → IsCell (source from.program.now from.layout.now from.sizes.now from.addresses.now) frame.registers later g.now frame.base frame.label i.now cell }
    ensures { IfOk result (λ c. Grows code.old code.new × Stays (source from.entry.program.now from.entry.layout.now from.entry.sizes.now from.entry.addresses.now) g.now frame code.new i.now c) }
{
    Ok(cell)
}

/// The cell of an instruction.
fn cell(
    from: From,
    g: &Function,
    blocks: Blocks,
    frame: Frame,
    code: &mut Code,
    i: &Instr,
) -> Result<Cell, NoMemory>
    requires formed { IsTrue (is_formed from.layout.now) }
    requires table { table_holds from.layout.now from.sizes.now 0 from.program.now.types ≡ true }
    requires labels { AreLabels g.now blocks.labels.now }
    requires starts { AreStarts g.now frame.base blocks.starts.now }
    ensures { IfOk result (λ c. Grows code.old code.new × Stays (source from.entry.program.now from.entry.layout.now from.entry.sizes.now from.entry.addresses.now) g.now frame code.new i.now c) }
{
    match &i.op {
        Op::Binary(o, w, a, b) => binary(from, g, frame, code, i, *o, *w, a, b),
        Op::Compare(o, t, a, b) => compare(from, g, frame, code, i, *o, t, a, b),
        Op::Cast(o, t, a, u) => convert(from, g, frame, code, i, *o, t, a, u),
        Op::Freeze(t, a) => freeze(from, g, frame, code, i, t, a),
        Op::Select(c, t, a, b) => select(from, g, frame, code, i, c, t, a, b),
        Op::Phi(_, _) => alone(from, g, frame, code, i, Cell::Phi),
        Op::Alloca(t, count, align) => allocate(from, g, frame, code, i, t, count, *align),
        Op::Load(volatile, t, a) => load(from, g, frame, code, i, *volatile, t, a),
        Op::Store(volatile, t, v, a) => store(from, g, frame, code, i, *volatile, t, v, a),
        Op::Gep(t, a, indices) => step_into(from, g, frame, code, i, t, a, indices.as_slice()),
        Op::Call(t, callee, given) => call(from, g, frame, code, i, t, callee, given.as_slice()),
        Op::Br(to) => branch(from, g, blocks, frame, code, i, *to),
        Op::CondBr(a, to, other) => branch_if(from, g, blocks, frame, code, i, a, *to, *other),
        Op::Switch(w, a, default, given) => switch(
            from,
            g,
            blocks,
            frame,
            code,
            i,
            *w,
            a,
            *default,
            given.as_slice(),
        ),
        Op::Ret(Some((t, a))) => leave(from, g, frame, code, i, t, a),
        Op::Ret(None) => alone(from, g, frame, code, i, Cell::Leave),
        Op::Unreachable => alone(from, g, frame, code, i, Cell::Unreachable),
    }
}

pub(crate) fn put_cell(code: &mut Code, one: Cell, place: Place) -> Result<(), NoMemory>
    ensures { OnOk result (code.new ≡ record code.old { cells = code.old.cells ++ one ∷ []; places = code.old.places ++ place ∷ [] }) }
{
    code.cells.push(one)?;
    code.places.push(place)?;
    Ok(())
}

/// Makes the cell of an instruction that stands at a place.
pub(crate) fn make_cell(
    from: From,
    g: &Function,
    blocks: Blocks,
    frame: Frame,
    code: &mut Code,
    i: &Instr,
    place: Place,
) -> Result<(), NoMemory>
    requires formed { IsTrue (is_formed from.layout.now) }
    requires table { table_holds from.layout.now from.sizes.now 0 from.program.now.types ≡ true }
    requires labels { AreLabels g.now blocks.labels.now }
    requires starts { AreStarts g.now frame.base blocks.starts.now }
    ensures { OnOk result (PutsCell (source from.entry.program.now from.entry.layout.now from.entry.sizes.now from.entry.addresses.now) g.now frame code.old code.new i.now place) }
{
    let c = cell(from, g, blocks, frame, code, i)?;
    put_cell(code, c, place)?;
    Ok(())
}
