ghost use Rattle.std.specs.Prelude.{◌≡◌, ◌^◌, ◌<◌, ◌++◌, ◌∷◌, [], ℕ, IfOk, IsTrue, List, OnOk, Some, true};
ghost use Rattle.std.specs.Option.{option_copied};
ghost use Rattle.no_ir.specs.declared.types.Ty.{out-Ty};
ghost use Rattle.no_ir.specs.declared.instruction.Op.TheVariants as op;
ghost use Rattle.no_layout.specs.Text.{is_formed};
ghost use Rattle.no_layout.specs.Sizes.{HasField, offset_of, type_align, type_stride};
ghost use Rattle.no_semantics.specs.Image.{stated_or};
ghost use Rattle.no_semantics.specs.Sound.{align_fits, field_number, field_of, known_part, operand_number, table_holds, type_fits};
ghost use Rattle.no_code.specs.Coded.{ArePath, IsCount, IsField, IsIndex, IsPartStep};
ghost use Rattle.no_code.specs.Longer.{Adds};
ghost use Rattle.no_code.specs.Making.{Grows, PutsSteps, Stays};
ghost use Rattle.no_code.specs.Source.{source};

use crate::code::{Cell, Code, Step};
use crate::constant::From;
use crate::frame::Frame;
use crate::slot::{into, put_one, slot, small};
use no_ir::{Const, Function, Instr, NoMemory, Operand, Ty};
use no_semantics::resolved;

/// How far two values of a type are apart in memory, where it has a size.
fn apart(from: From, t: &Ty) -> u32
    requires formed { IsTrue (is_formed from.layout.now) }
    ensures { type_fits from.entry.layout.now from.entry.sizes.now t.now ≡ true → result ≡ type_stride from.entry.layout.now from.entry.sizes.now t.now }
{
    if !from.layout.fits(from.sizes, t) {
        return 0;
    }
    from.layout.stride(from.sizes, t) as u32
}

/// A stated alignment, or that of the type, where it has a size.
fn aligned(from: From, t: &Ty, stated: Option<u32>) -> u32
    requires formed { IsTrue (is_formed from.layout.now) }
    ensures value { type_fits from.entry.layout.now from.entry.sizes.now t.now ≡ true → result ≡ stated_or stated (type_align from.entry.layout.now from.entry.sizes.now t.now) }
    ensures some { align_fits stated ≡ true → 0 < result }
{
    match stated {
        Some(align) => align,
        None => {
            if !from.layout.fits(from.sizes, t) {
                return 1;
            }
            from.layout.align(from.sizes, t) as u32
        }
    }
}

/// The slot of a count, or of a one where none is stated.
fn count_slot(
    from: From,
    n: u32,
    code: &mut Code,
    count: &Option<(u8, Operand)>,
) -> Result<u32, NoMemory>
    requires formed { IsTrue (is_formed from.layout.now) }
    requires table { table_holds from.layout.now from.sizes.now 0 from.program.now.types ≡ true }
    ensures { IfOk result (λ x. Adds code.old code.new × IsCount (source from.entry.program.now from.entry.layout.now from.entry.sizes.now from.entry.addresses.now) n code.new count.now x) }
{
    match count {
        Some((w, a)) => slot(from, n, code, *w, a),
        None => put_one(from, n, code),
    }
}

pub(crate) fn allocate(
    from: From,
    g: &Function,
    frame: Frame,
    code: &mut Code,
    i: &Instr,
    t: &Ty,
    count: &Option<(u8, Operand)>,
    stated: Option<u32>,
) -> Result<Cell, NoMemory>
    requires formed { IsTrue (is_formed from.layout.now) }
    requires table { table_holds from.layout.now from.sizes.now 0 from.program.now.types ≡ true }
    requires is { i.now.op ≡ op.Alloca t.now count.now stated }
    ensures { IfOk result (λ c. Grows code.old code.new × Stays (source from.entry.program.now from.entry.layout.now from.entry.sizes.now from.entry.addresses.now) g.now frame code.new i.now c) }
{
    let x = count_slot(from, frame.registers, code, count)?;
    let stride = apart(from, t);
    let align = aligned(from, t, stated);
    Ok(Cell::Alloca(into(frame.registers, i.result), x, stride, align))
}

/// The number of a field, which is a constant i32.
fn field_number(index: &(u8, Operand)) -> Option<u64>
    ensures { result ≡ field_number index.now }
{
    if index.0 == 32 {
        constant_of(&index.1)
    } else {
        None
    }
}

fn constant_of(a: &Operand) -> Option<u64>
    ensures { result ≡ operand_number a.now }
{
    match a {
        Operand::Const(Const::Int(number)) => Some(*number),
        _ => None,
    }
}

fn field_of(fields: &[Ty], number: Option<u64>) -> Option<&Ty>
    ensures { option_copied result ≡ field_of fields.now number }
{
    match number {
        None => None,
        Some(number) => {
            if number < 0x8000_0000 {
                fields.get(number as usize)
            } else {
                None
            }
        }
    }
}

/// The type of what an index leads to, where it is known.
fn known_part<'a>(t: &'a Ty, index: &(u8, Operand)) -> Option<&'a Ty>
    ensures { option_copied result ≡ known_part (out-Ty t.now) index.now }
{
    match t {
        Ty::Array(_, element) => Some(element.get()),
        Ty::Struct(_, fields) => field_of(fields.as_slice(), field_number(index)),
        _ => None,
    }
}

/// Where a field begins, where the struct has it and a size.
fn field_offset(from: From, t: &Ty, k: u64) -> u32
    requires formed { IsTrue (is_formed from.layout.now) }
    ensures { type_fits from.entry.layout.now from.entry.sizes.now t.now ≡ true → k < 2 ^ 31 → HasField t.now k → result ≡ offset_of from.entry.layout.now from.entry.sizes.now t.now k }
{
    match t {
        Ty::Struct(_, fields) => {
            if k < 0x8000_0000 && (k as usize) < fields.len() && from.layout.fits(from.sizes, t) {
                from.layout.offset(from.sizes, t, k as u32) as u32
            } else {
                0
            }
        }
        _ => 0,
    }
}

/// The step of an index over values of a type.
fn index_step(
    from: From,
    n: u32,
    code: &mut Code,
    t: &Ty,
    index: &(u8, Operand),
) -> Result<Step, NoMemory>
    requires formed { IsTrue (is_formed from.layout.now) }
    requires table { table_holds from.layout.now from.sizes.now 0 from.program.now.types ≡ true }
    ensures { IfOk result (λ one. Adds code.old code.new × IsIndex (source from.entry.program.now from.entry.layout.now from.entry.sizes.now from.entry.addresses.now) n code.new t.now index.now one) }
{
    let x = slot(from, n, code, index.0, &index.1)?;
    Ok(Step::Index(index.0, x, apart(from, t)))
}

/// The step of a field.
fn field_step(from: From, t: &Ty, number: Option<u64>) -> Step
    requires formed { IsTrue (is_formed from.layout.now) }
    ensures { (n : ℕ) (code : Code) → IsField (source from.entry.program.now from.entry.layout.now from.entry.sizes.now from.entry.addresses.now) n code t.now number result }
{
    match number {
        Some(k) => Step::Field(field_offset(from, t, k)),
        None => Step::Field(0),
    }
}

/// The step of an index into an array or a struct.
fn part_step(
    from: From,
    n: u32,
    code: &mut Code,
    t: &Ty,
    index: &(u8, Operand),
) -> Result<Step, NoMemory>
    requires formed { IsTrue (is_formed from.layout.now) }
    requires table { table_holds from.layout.now from.sizes.now 0 from.program.now.types ≡ true }
    ensures { IfOk result (λ one. Adds code.old code.new × IsPartStep (source from.entry.program.now from.entry.layout.now from.entry.sizes.now from.entry.addresses.now) n code.new t.now (out-Ty t.now) index.now one) }
{
    match t {
        Ty::Array(_, element) => index_step(from, n, code, element.get(), index),
        Ty::Struct(_, _) => Ok(field_step(from, t, field_number(index))),
        _ => Ok(Step::Field(0)),
    }
}

fn put_step(code: &mut Code, one: Step) -> Result<(), NoMemory>
    ensures { OnOk result (code.new ≡ record code.old { steps = code.old.steps ++ one ∷ [] }) }
{
    code.steps.push(one)?;
    Ok(())
}

/// The step of the first index.
fn first_step(
    from: From,
    n: u32,
    code: &mut Code,
    t: &Ty,
    index: &(u8, Operand),
) -> Result<(), NoMemory>
    requires formed { IsTrue (is_formed from.layout.now) }
    requires table { table_holds from.layout.now from.sizes.now 0 from.program.now.types ≡ true }
    ensures { OnOk result (PutsSteps code.old code.new (λ later steps. (one : Step) × (steps ≡ one ∷ []) × IsIndex (source from.entry.program.now from.entry.layout.now from.entry.sizes.now from.entry.addresses.now) n later t.now index.now one)) }
{
    let one = index_step(from, n, code, t, index)?;
    put_step(code, one)?;
    Ok(())
}

/// The step of one more index.
fn next_step(
    from: From,
    n: u32,
    code: &mut Code,
    t: &Ty,
    index: &(u8, Operand),
) -> Result<(), NoMemory>
    requires formed { IsTrue (is_formed from.layout.now) }
    requires table { table_holds from.layout.now from.sizes.now 0 from.program.now.types ≡ true }
    ensures { OnOk result (PutsSteps code.old code.new (λ later steps. (one : Step) × (steps ≡ one ∷ []) × IsPartStep (source from.entry.program.now from.entry.layout.now from.entry.sizes.now from.entry.addresses.now) n later t.now (out-Ty t.now) index.now one)) }
{
    let one = part_step(from, n, code, t, index)?;
    put_step(code, one)?;
    Ok(())
}

/// The steps of a path into a type.
fn path(
    from: From,
    n: u32,
    code: &mut Code,
    t: &Ty,
    indices: &[(u8, Operand)],
) -> Result<(), NoMemory>
    requires formed { IsTrue (is_formed from.layout.now) }
    requires table { table_holds from.layout.now from.sizes.now 0 from.program.now.types ≡ true }
    ensures { OnOk result (PutsSteps code.old code.new (λ later steps. ArePath (source from.entry.program.now from.entry.layout.now from.entry.sizes.now from.entry.addresses.now) n later t.now indices.now steps)) }
{
    if indices.is_empty() {
        return Ok(());
    }
    let head = &indices[0];
    first_step(from, n, code, t, head)?;
    let mut at = t;
    for k in 1..indices.len() {
        let index = &indices[k];
        let whole = resolved(from.program, at);
        match known_part(whole, index) {
            None => return Ok(()),
            Some(next) => {
                next_step(from, n, code, whole, index)?;
                at = next;
            }
        }
    }
    Ok(())
}

pub(crate) fn step_into(
    from: From,
    g: &Function,
    frame: Frame,
    code: &mut Code,
    i: &Instr,
    t: &Ty,
    a: &Operand,
    indices: &[(u8, Operand)],
) -> Result<Cell, NoMemory>
    requires formed { IsTrue (is_formed from.layout.now) }
    requires table { table_holds from.layout.now from.sizes.now 0 from.program.now.types ≡ true }
    requires is { i.now.op ≡ op.Gep t.now a.now indices.now }
    ensures { IfOk result (λ c. Grows code.old code.new × Stays (source from.entry.program.now from.entry.layout.now from.entry.sizes.now from.entry.addresses.now) g.now frame code.new i.now c) }
{
    let x = slot(from, frame.registers, code, from.layout.pointer, a)?;
    let first = small(code.steps.len())?;
    path(from, frame.registers, code, t, indices)?;
    let last = small(code.steps.len())?;
    Ok(Cell::Gep(into(frame.registers, i.result), x, first, last))
}
