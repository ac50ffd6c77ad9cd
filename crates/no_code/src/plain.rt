ghost use Rattle.std.specs.Prelude.{◌≡◌, IfOk, IsTrue, None, Some, true};
ghost use Rattle.no_ir.specs.declared.instruction.Op.TheVariants as op;
ghost use Rattle.no_layout.specs.Text.{is_formed};
ghost use Rattle.no_semantics.specs.Sound.{table_holds};
ghost use Rattle.no_code.specs.Making.{Grows, Stays, binary_cell, cast_cell, compare_cell};
ghost use Rattle.no_code.specs.Source.{source};

use crate::code::{Cell, Code};
use crate::constant::From;
use crate::frame::Frame;
use crate::slot::{into, slot, two};
use no_ir::{BinOp, CastOp, Function, Instr, NoMemory, Operand, Pred, Ty};
use no_semantics::width;

fn binary_cell(o: BinOp, w: u8, into: u32, x: u32, y: u32) -> Cell
    ensures { result ≡ binary_cell o w into x y }
{
    match o {
        BinOp::Add => Cell::Add(w, into, x, y),
        BinOp::Sub => Cell::Sub(w, into, x, y),
        BinOp::Mul => Cell::Mul(w, into, x, y),
        BinOp::UDiv => Cell::UDiv(w, into, x, y),
        BinOp::URem => Cell::URem(w, into, x, y),
        BinOp::SDiv => Cell::SDiv(w, into, x, y),
        BinOp::SRem => Cell::SRem(w, into, x, y),
        BinOp::Shl => Cell::Shl(w, into, x, y),
        BinOp::LShr => Cell::LShr(w, into, x, y),
        BinOp::AShr => Cell::AShr(w, into, x, y),
        BinOp::And => Cell::And(w, into, x, y),
        BinOp::Or => Cell::Or(w, into, x, y),
        BinOp::Xor => Cell::Xor(w, into, x, y),
    }
}

fn compare_cell(o: Pred, w: u8, into: u32, x: u32, y: u32) -> Cell
    ensures { result ≡ compare_cell o w into x y }
{
    match o {
        Pred::Eq => Cell::Eq(w, into, x, y),
        Pred::Ne => Cell::Ne(w, into, x, y),
        Pred::Ugt => Cell::Ugt(w, into, x, y),
        Pred::Uge => Cell::Uge(w, into, x, y),
        Pred::Ult => Cell::Ult(w, into, x, y),
        Pred::Ule => Cell::Ule(w, into, x, y),
        Pred::Sgt => Cell::Sgt(w, into, x, y),
        Pred::Sge => Cell::Sge(w, into, x, y),
        Pred::Slt => Cell::Slt(w, into, x, y),
        Pred::Sle => Cell::Sle(w, into, x, y),
    }
}

fn cast_cell(o: CastOp, w: u8, to: u8, into: u32, x: u32) -> Cell
    ensures { result ≡ cast_cell o w to into x }
{
    match o {
        CastOp::Trunc => Cell::Trunc(w, to, into, x),
        CastOp::ZExt => Cell::ZExt(w, to, into, x),
        CastOp::SExt => Cell::SExt(w, to, into, x),
        CastOp::PtrToInt => Cell::PtrToInt(w, to, into, x),
        CastOp::IntToPtr => Cell::IntToPtr(w, to, into, x),
        CastOp::BitCast => Cell::BitCast(w, to, into, x),
    }
}

pub(crate) fn binary(
    from: From,
    g: &Function,
    frame: Frame,
    code: &mut Code,
    i: &Instr,
    o: BinOp,
    w: u8,
    a: &Operand,
    b: &Operand,
) -> Result<Cell, NoMemory>
    requires formed { IsTrue (is_formed from.layout.now) }
    requires table { table_holds from.layout.now from.sizes.now 0 from.program.now.types ≡ true }
    requires is { i.now.op ≡ op.Binary o w a.now b.now }
    ensures { IfOk result (λ c. Grows code.old code.new × Stays (source from.entry.program.now from.entry.layout.now from.entry.sizes.now from.entry.addresses.now) g.now frame code.new i.now c) }
{
    let (x, y) = two(from, frame.registers, code, w, a, b)?;
    Ok(binary_cell(o, w, into(frame.registers, i.result), x, y))
}

pub(crate) fn compare(
    from: From,
    g: &Function,
    frame: Frame,
    code: &mut Code,
    i: &Instr,
    o: Pred,
    t: &Ty,
    a: &Operand,
    b: &Operand,
) -> Result<Cell, NoMemory>
    requires formed { IsTrue (is_formed from.layout.now) }
    requires table { table_holds from.layout.now from.sizes.now 0 from.program.now.types ≡ true }
    requires is { i.now.op ≡ op.Compare o t.now a.now b.now }
    ensures { IfOk result (λ c. Grows code.old code.new × Stays (source from.entry.program.now from.entry.layout.now from.entry.sizes.now from.entry.addresses.now) g.now frame code.new i.now c) }
{
    let w = width(from.layout, t);
    let (x, y) = two(from, frame.registers, code, w, a, b)?;
    Ok(compare_cell(o, w, into(frame.registers, i.result), x, y))
}

pub(crate) fn convert(
    from: From,
    g: &Function,
    frame: Frame,
    code: &mut Code,
    i: &Instr,
    o: CastOp,
    t: &Ty,
    a: &Operand,
    u: &Ty,
) -> Result<Cell, NoMemory>
    requires formed { IsTrue (is_formed from.layout.now) }
    requires table { table_holds from.layout.now from.sizes.now 0 from.program.now.types ≡ true }
    requires is { i.now.op ≡ op.Cast o t.now a.now u.now }
    ensures { IfOk result (λ c. Grows code.old code.new × Stays (source from.entry.program.now from.entry.layout.now from.entry.sizes.now from.entry.addresses.now) g.now frame code.new i.now c) }
{
    let w = width(from.layout, t);
    let to = width(from.layout, u);
    let x = slot(from, frame.registers, code, w, a)?;
    Ok(cast_cell(o, w, to, into(frame.registers, i.result), x))
}

pub(crate) fn freeze(
    from: From,
    g: &Function,
    frame: Frame,
    code: &mut Code,
    i: &Instr,
    t: &Ty,
    a: &Operand,
) -> Result<Cell, NoMemory>
    requires formed { IsTrue (is_formed from.layout.now) }
    requires table { table_holds from.layout.now from.sizes.now 0 from.program.now.types ≡ true }
    requires is { i.now.op ≡ op.Freeze t.now a.now }
    ensures { IfOk result (λ c. Grows code.old code.new × Stays (source from.entry.program.now from.entry.layout.now from.entry.sizes.now from.entry.addresses.now) g.now frame code.new i.now c) }
{
    let x = slot(from, frame.registers, code, width(from.layout, t), a)?;
    Ok(Cell::Copy(into(frame.registers, i.result), x))
}

pub(crate) fn select(
    from: From,
    g: &Function,
    frame: Frame,
    code: &mut Code,
    i: &Instr,
    z: &Operand,
    t: &Ty,
    a: &Operand,
    b: &Operand,
) -> Result<Cell, NoMemory>
    requires formed { IsTrue (is_formed from.layout.now) }
    requires table { table_holds from.layout.now from.sizes.now 0 from.program.now.types ≡ true }
    requires is { i.now.op ≡ op.Select z.now t.now a.now b.now }
    ensures { IfOk result (λ c. Grows code.old code.new × Stays (source from.entry.program.now from.entry.layout.now from.entry.sizes.now from.entry.addresses.now) g.now frame code.new i.now c) }
{
    let condition = slot(from, frame.registers, code, 1, z)?;
    let (x, y) = two(from, frame.registers, code, width(from.layout, t), a, b)?;
    Ok(Cell::Select(into(frame.registers, i.result), condition, x, y))
}

pub(crate) fn load(
    from: From,
    g: &Function,
    frame: Frame,
    code: &mut Code,
    i: &Instr,
    volatile: bool,
    t: &Ty,
    a: &Operand,
) -> Result<Cell, NoMemory>
    requires formed { IsTrue (is_formed from.layout.now) }
    requires table { table_holds from.layout.now from.sizes.now 0 from.program.now.types ≡ true }
    requires is { i.now.op ≡ op.Load volatile t.now a.now }
    ensures { IfOk result (λ c. Grows code.old code.new × Stays (source from.entry.program.now from.entry.layout.now from.entry.sizes.now from.entry.addresses.now) g.now frame code.new i.now c) }
{
    let x = slot(from, frame.registers, code, from.layout.pointer, a)?;
    Ok(Cell::Load(width(from.layout, t), into(frame.registers, i.result), x))
}

pub(crate) fn store(
    from: From,
    g: &Function,
    frame: Frame,
    code: &mut Code,
    i: &Instr,
    volatile: bool,
    t: &Ty,
    v: &Operand,
    a: &Operand,
) -> Result<Cell, NoMemory>
    requires formed { IsTrue (is_formed from.layout.now) }
    requires table { table_holds from.layout.now from.sizes.now 0 from.program.now.types ≡ true }
    requires is { i.now.op ≡ op.Store volatile t.now v.now a.now }
    ensures { IfOk result (λ c. Grows code.old code.new × Stays (source from.entry.program.now from.entry.layout.now from.entry.sizes.now from.entry.addresses.now) g.now frame code.new i.now c) }
{
    let w = width(from.layout, t);
    let y = slot(from, frame.registers, code, w, v)?;
    let x = slot(from, frame.registers, code, from.layout.pointer, a)?;
    Ok(Cell::Store(w, y, x))
}

pub(crate) fn leave(
    from: From,
    g: &Function,
    frame: Frame,
    code: &mut Code,
    i: &Instr,
    t: &Ty,
    a: &Operand,
) -> Result<Cell, NoMemory>
    requires formed { IsTrue (is_formed from.layout.now) }
    requires table { table_holds from.layout.now from.sizes.now 0 from.program.now.types ≡ true }
    requires is { i.now.op ≡ op.Ret (Some (t.now, a.now)) }
    ensures { IfOk result (λ c. Grows code.old code.new × Stays (source from.entry.program.now from.entry.layout.now from.entry.sizes.now from.entry.addresses.now) g.now frame code.new i.now c) }
{
    let x = slot(from, frame.registers, code, width(from.layout, t), a)?;
    Ok(Cell::Ret(x))
}
