ghost use Rattle.std.specs.Prelude.{◌≡◌, ◌+◌, ◌-◌, ◌^◌, ◌<◌, ◌≤◌, ◌∷◌, ◌++◌, [], IfOk, IsTrue, Some, length, slice_get, true};
ghost use Rattle.no_ir.specs.declared.constant.Const.TheVariants as const;
ghost use Rattle.no_ir.specs.declared.instruction.Operand.TheVariants as operand;
ghost use Rattle.no_layout.specs.Text.{is_formed};
ghost use Rattle.no_semantics.specs.Sound.{table_holds};
ghost use Rattle.no_code.specs.Longer.{Adds};
ghost use Rattle.no_code.specs.Slots.{IsInto, IsSlot, first_constant};
ghost use Rattle.no_code.specs.Source.{source};

use crate::code::Code;
use crate::constant::{From, known};
use no_ir::{NoMemory, Operand};

const FIRST_CONSTANT: u32 = 0x8000_0000;

/// The slot of a result among n registers.
pub(crate) fn into(n: u32, register: Option<u32>) -> u32
    ensures { IsInto n register result }
{
    match register {
        Some(r) if r < n => r,
        _ => n,
    }
}

/// A number as a table of cells keeps it; there is no memory for tables of 2^31 entries.
pub(crate) fn small(n: usize) -> Result<u32, NoMemory>
    ensures { IfOk result (λ r. (r ≡ n) × (r < 2 ^ 31)) }
{
    if n >= 0x8000_0000 {
        return Err(NoMemory);
    }
    Ok(n as u32)
}

/// The slot of a new constant.
pub(crate) fn put_constant(code: &mut Code, number: u64) -> Result<u32, NoMemory>
    ensures { IfOk result (λ x. (code.new ≡ record code.old { constants = code.old.constants ++ number ∷ [] }) × (first_constant ≤ x) × (x - first_constant ≡ length code.old.constants)) }
{
    let k = small(code.constants.len())?;
    code.constants.push(number)?;
    Ok(FIRST_CONSTANT + k)
}

/// The slot of an operand of w bits among n registers.
pub(crate) fn slot(from: From, n: u32, code: &mut Code, w: u8, o: &Operand) -> Result<u32, NoMemory>
    requires formed { IsTrue (is_formed from.layout.now) }
    requires table { table_holds from.layout.now from.sizes.now 0 from.program.now.types ≡ true }
    ensures { IfOk result (λ x. Adds code.old code.new × IsSlot (source from.entry.program.now from.entry.layout.now from.entry.sizes.now from.entry.addresses.now) n code.new.constants w o.now x) }
{
    match o {
        Operand::Reg(r) => Ok(if *r < n { *r } else { n }),
        Operand::Const(c) => put_constant(code, known(from, w, c)),
    }
}

/// The slots of two operands of w bits.
pub(crate) fn two(
    from: From,
    n: u32,
    code: &mut Code,
    w: u8,
    a: &Operand,
    b: &Operand,
) -> Result<(u32, u32), NoMemory>
    requires formed { IsTrue (is_formed from.layout.now) }
    requires table { table_holds from.layout.now from.sizes.now 0 from.program.now.types ≡ true }
    ensures { IfOk result (λ x. Adds code.old code.new
        × IsSlot (source from.entry.program.now from.entry.layout.now from.entry.sizes.now from.entry.addresses.now) n code.new.constants w a.now x.0
        × IsSlot (source from.entry.program.now from.entry.layout.now from.entry.sizes.now from.entry.addresses.now) n code.new.constants w b.now x.1) }
{
    let x = slot(from, n, code, w, a)?;
    let y = slot(from, n, code, w, b)?;
    Ok((x, y))
}

/// The slot of a one.
pub(crate) fn put_one(from: From, n: u32, code: &mut Code) -> Result<u32, NoMemory>
    ensures { IfOk result (λ x. Adds code.old code.new × IsSlot (source from.entry.program.now from.entry.layout.now from.entry.sizes.now from.entry.addresses.now) n code.new.constants 64 (operand.Const (const.Int 1)) x) }
{
    let x = put_constant(code, 1)?;
    Ok(x)
}
