ghost use Rattle.std.specs.Prelude.{◌≡◌, ◌++◌, ◌∷◌, [], IfOk, IsTrue, None, OnOk, Some, true};
ghost use Rattle.no_ir.specs.declared.instruction.Op.TheVariants as op;
ghost use Rattle.no_layout.specs.Text.{is_formed};
ghost use Rattle.no_semantics.specs.Sound.{table_holds};
ghost use Rattle.no_code.specs.Coded.{IsArgument, direct, kind_of};
ghost use Rattle.no_code.specs.Longer.{Adds};
ghost use Rattle.no_code.specs.Making.{Grows, PutsArguments, Stays};
ghost use Rattle.no_code.specs.Source.{source};

use crate::code::{Argument, Cell, Code, Kind};
use crate::constant::From;
use crate::frame::Frame;
use crate::slot::{into, slot, small};
use no_ir::{Const, Function, Instr, NoMemory, Operand, Symbol, Ty};
use no_semantics::width;

/// What a type is at a parameter, an argument or a result.
pub(crate) fn kind(t: &Ty) -> Kind
    ensures { result ≡ kind_of t.now }
{
    match t {
        Ty::Void => Kind::Void,
        Ty::Int(w) => Kind::Int(*w),
        Ty::Ptr => Kind::Ptr,
        _ => Kind::Other,
    }
}

/// The function that a callee names, where it is a bare name and no other address.
fn named(callee: &Operand) -> Option<u32>
    ensures { result ≡ direct callee.now }
{
    match callee {
        Operand::Const(Const::Address(place)) => match &place.symbol {
            Symbol::Function(k) => {
                if place.indices.is_empty() {
                    Some(*k)
                } else {
                    None
                }
            }
            _ => None,
        },
        _ => None,
    }
}

pub(crate) fn put_argument(code: &mut Code, argument: Argument) -> Result<(), NoMemory>
    ensures { OnOk result (code.new ≡ record code.old { arguments = code.old.arguments ++ argument ∷ [] }) }
{
    code.arguments.push(argument)?;
    Ok(())
}

/// An argument of a call.
fn argument(
    from: From,
    n: u32,
    code: &mut Code,
    given: &(Ty, Operand),
) -> Result<Argument, NoMemory>
    requires formed { IsTrue (is_formed from.layout.now) }
    requires table { table_holds from.layout.now from.sizes.now 0 from.program.now.types ≡ true }
    ensures { IfOk result (λ a. Adds code.old code.new × IsArgument (source from.entry.program.now from.entry.layout.now from.entry.sizes.now from.entry.addresses.now) n code.new given.now a) }
{
    let x = slot(from, n, code, width(from.layout, &given.0), &given.1)?;
    Ok(Argument {
        slot: x,
        kind: kind(&given.0),
    })
}

/// The arguments of a call.
fn arguments(from: From, n: u32, code: &mut Code, given: &[(Ty, Operand)]) -> Result<(), NoMemory>
    requires formed { IsTrue (is_formed from.layout.now) }
    requires table { table_holds from.layout.now from.sizes.now 0 from.program.now.types ≡ true }
    ensures { OnOk result (PutsArguments (source from.entry.program.now from.entry.layout.now from.entry.sizes.now from.entry.addresses.now) n code.old code.new given.now) }
{
    for one in given {
        let a = argument(from, n, code, one)?;
        put_argument(code, a)?;
    }
    Ok(())
}

/// A call of a function by its name.
fn call_named(
    from: From,
    g: &Function,
    frame: Frame,
    code: &mut Code,
    i: &Instr,
    t: &Ty,
    callee: &Operand,
    k: u32,
    given: &[(Ty, Operand)],
) -> Result<Cell, NoMemory>
    requires formed { IsTrue (is_formed from.layout.now) }
    requires table { table_holds from.layout.now from.sizes.now 0 from.program.now.types ≡ true }
    requires is { i.now.op ≡ op.Call t.now callee.now given.now }
    requires names { direct callee.now ≡ Some k }
    ensures { IfOk result (λ c. Grows code.old code.new × Stays (source from.entry.program.now from.entry.layout.now from.entry.sizes.now from.entry.addresses.now) g.now frame code.new i.now c) }
{
    let start = small(code.arguments.len())?;
    arguments(from, frame.registers, code, given)?;
    let end = small(code.arguments.len())?;
    Ok(Cell::Call(into(frame.registers, i.result), k, start, end))
}

/// A call through a pointer.
fn call_at(
    from: From,
    g: &Function,
    frame: Frame,
    code: &mut Code,
    i: &Instr,
    t: &Ty,
    callee: &Operand,
    given: &[(Ty, Operand)],
) -> Result<Cell, NoMemory>
    requires formed { IsTrue (is_formed from.layout.now) }
    requires table { table_holds from.layout.now from.sizes.now 0 from.program.now.types ≡ true }
    requires is { i.now.op ≡ op.Call t.now callee.now given.now }
    requires names { direct callee.now ≡ None }
    ensures { IfOk result (λ c. Grows code.old code.new × Stays (source from.entry.program.now from.entry.layout.now from.entry.sizes.now from.entry.addresses.now) g.now frame code.new i.now c) }
{
    let x = slot(from, frame.registers, code, from.layout.pointer, callee)?;
    let start = small(code.arguments.len())?;
    let target = Argument {
        slot: x,
        kind: kind(t),
    };
    put_argument(code, target)?;
    arguments(from, frame.registers, code, given)?;
    let end = small(code.arguments.len())?;
    Ok(Cell::CallAt(into(frame.registers, i.result), start, end))
}

pub(crate) fn call(
    from: From,
    g: &Function,
    frame: Frame,
    code: &mut Code,
    i: &Instr,
    t: &Ty,
    callee: &Operand,
    given: &[(Ty, Operand)],
) -> Result<Cell, NoMemory>
    requires formed { IsTrue (is_formed from.layout.now) }
    requires table { table_holds from.layout.now from.sizes.now 0 from.program.now.types ≡ true }
    requires is { i.now.op ≡ op.Call t.now callee.now given.now }
    ensures { IfOk result (λ c. Grows code.old code.new × Stays (source from.entry.program.now from.entry.layout.now from.entry.sizes.now from.entry.addresses.now) g.now frame code.new i.now c) }
{
    match named(callee) {
        Some(k) => call_named(from, g, frame, code, i, t, callee, k, given),
        None => call_at(from, g, frame, code, i, t, callee, given),
    }
}
