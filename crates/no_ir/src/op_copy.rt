ghost use Rattle.std.specs.Prelude.{◌≡◌, IfOk};

use crate::duplicate::Duplicate;
use crate::{BinOp, CastOp, NoMemory, Op, Operand, Pred, Ty};
use sqlite_items::Items as List;
use std::alloc::Global;

impl Op {
    /// An equal operation.
    pub fn copy(&self, alloc: Global) -> Result<Op, NoMemory>
        ensures { IfOk result (λ o. o ≡ self.now) }
    {
        match self {
            Op::Binary(op, width, left, right) => copy_binary(alloc, *op, *width, left, right),
            Op::Compare(pred, ty, left, right) => copy_compare(alloc, *pred, ty, left, right),
            Op::Cast(op, from, value, into) => copy_cast(alloc, *op, from, value, into),
            Op::Freeze(ty, value) => copy_freeze(alloc, ty, value),
            Op::Select(condition, ty, chosen, other) => copy_select(
                alloc, condition, ty, chosen, other,
            ),
            Op::Phi(ty, pairs) => copy_phi(alloc, ty, pairs),
            Op::Alloca(ty, count, align) => copy_alloca(alloc, ty, count, *align),
            Op::Load(volatile, ty, address) => copy_load(alloc, *volatile, ty, address),
            Op::Store(volatile, ty, value, address) => copy_store(
                alloc, *volatile, ty, value, address,
            ),
            Op::Gep(ty, base, indices) => copy_gep(alloc, ty, base, indices),
            Op::Call(ty, callee, arguments) => copy_call(alloc, ty, callee, arguments),
            Op::Br(label) => Ok(Op::Br(*label)),
            Op::CondBr(condition, chosen, other) => copy_cond_br(alloc, condition, *chosen, *other),
            Op::Switch(width, value, default, cases) => copy_switch(
                alloc, *width, value, *default, cases,
            ),
            Op::Ret(value) => copy_ret(alloc, value),
            Op::Unreachable => Ok(Op::Unreachable),
        }
    }
}

/// An equal `Binary`.
fn copy_binary(
    alloc: Global,
    op: BinOp,
    width: u8,
    left: &Operand,
    right: &Operand,
) -> Result<Op, NoMemory>
    ensures { IfOk result (λ o. o ≡ Op.Binary op width left.now right.now) }
{
    let left = left.duplicate(alloc)?;
    let right = right.duplicate(alloc)?;
    Ok(Op::Binary(op, width, left, right))
}

/// An equal `Compare`.
fn copy_compare(
    alloc: Global,
    pred: Pred,
    ty: &Ty,
    left: &Operand,
    right: &Operand,
) -> Result<Op, NoMemory>
    ensures { IfOk result (λ o. o ≡ Op.Compare pred ty.now left.now right.now) }
{
    let ty = ty.duplicate(alloc)?;
    let left = left.duplicate(alloc)?;
    let right = right.duplicate(alloc)?;
    Ok(Op::Compare(pred, ty, left, right))
}

/// An equal `Cast`.
fn copy_cast(
    alloc: Global,
    op: CastOp,
    from: &Ty,
    value: &Operand,
    into: &Ty,
) -> Result<Op, NoMemory>
    ensures { IfOk result (λ o. o ≡ Op.Cast op from.now value.now into.now) }
{
    let from = from.duplicate(alloc)?;
    let value = value.duplicate(alloc)?;
    let into = into.duplicate(alloc)?;
    Ok(Op::Cast(op, from, value, into))
}

/// An equal `Freeze`.
fn copy_freeze(alloc: Global, ty: &Ty, value: &Operand) -> Result<Op, NoMemory>
    ensures { IfOk result (λ o. o ≡ Op.Freeze ty.now value.now) }
{
    let ty = ty.duplicate(alloc)?;
    let value = value.duplicate(alloc)?;
    Ok(Op::Freeze(ty, value))
}

/// An equal `Select`.
fn copy_select(
    alloc: Global,
    condition: &Operand,
    ty: &Ty,
    chosen: &Operand,
    other: &Operand,
) -> Result<Op, NoMemory>
    ensures { IfOk result (λ o. o ≡ Op.Select condition.now ty.now chosen.now other.now) }
{
    let condition = condition.duplicate(alloc)?;
    let ty = ty.duplicate(alloc)?;
    let chosen = chosen.duplicate(alloc)?;
    let other = other.duplicate(alloc)?;
    Ok(Op::Select(condition, ty, chosen, other))
}

/// An equal `Phi`.
fn copy_phi(alloc: Global, ty: &Ty, pairs: &List<(Operand, u32)>) -> Result<Op, NoMemory>
    ensures { IfOk result (λ o. o ≡ Op.Phi ty.now pairs.now) }
{
    let ty = ty.duplicate(alloc)?;
    let pairs = pairs.duplicate(alloc)?;
    Ok(Op::Phi(ty, pairs))
}

/// An equal `Alloca`.
fn copy_alloca(
    alloc: Global,
    ty: &Ty,
    count: &Option<(u8, Operand)>,
    align: Option<u32>,
) -> Result<Op, NoMemory>
    ensures { IfOk result (λ o. o ≡ Op.Alloca ty.now count.now align) }
{
    let ty = ty.duplicate(alloc)?;
    let count = count.duplicate(alloc)?;
    Ok(Op::Alloca(ty, count, align))
}

/// An equal `Load`.
fn copy_load(alloc: Global, volatile: bool, ty: &Ty, address: &Operand) -> Result<Op, NoMemory>
    ensures { IfOk result (λ o. o ≡ Op.Load volatile ty.now address.now) }
{
    let ty = ty.duplicate(alloc)?;
    let address = address.duplicate(alloc)?;
    Ok(Op::Load(volatile, ty, address))
}

/// An equal `Store`.
fn copy_store(
    alloc: Global,
    volatile: bool,
    ty: &Ty,
    value: &Operand,
    address: &Operand,
) -> Result<Op, NoMemory>
    ensures { IfOk result (λ o. o ≡ Op.Store volatile ty.now value.now address.now) }
{
    let ty = ty.duplicate(alloc)?;
    let value = value.duplicate(alloc)?;
    let address = address.duplicate(alloc)?;
    Ok(Op::Store(volatile, ty, value, address))
}

/// An equal `Gep`.
fn copy_gep(
    alloc: Global,
    ty: &Ty,
    base: &Operand,
    indices: &List<(u8, Operand)>,
) -> Result<Op, NoMemory>
    ensures { IfOk result (λ o. o ≡ Op.Gep ty.now base.now indices.now) }
{
    let ty = ty.duplicate(alloc)?;
    let base = base.duplicate(alloc)?;
    let indices = indices.duplicate(alloc)?;
    Ok(Op::Gep(ty, base, indices))
}

/// An equal `Call`.
fn copy_call(
    alloc: Global,
    ty: &Ty,
    callee: &Operand,
    arguments: &List<(Ty, Operand)>,
) -> Result<Op, NoMemory>
    ensures { IfOk result (λ o. o ≡ Op.Call ty.now callee.now arguments.now) }
{
    let ty = ty.duplicate(alloc)?;
    let callee = callee.duplicate(alloc)?;
    let arguments = arguments.duplicate(alloc)?;
    Ok(Op::Call(ty, callee, arguments))
}

/// An equal `CondBr`.
fn copy_cond_br(alloc: Global, condition: &Operand, chosen: u32, other: u32) -> Result<Op, NoMemory>
    ensures { IfOk result (λ o. o ≡ Op.CondBr condition.now chosen other) }
{
    let condition = condition.duplicate(alloc)?;
    Ok(Op::CondBr(condition, chosen, other))
}

/// An equal `Switch`.
fn copy_switch(
    alloc: Global,
    width: u8,
    value: &Operand,
    default: u32,
    cases: &List<(u64, u32)>,
) -> Result<Op, NoMemory>
    ensures { IfOk result (λ o. o ≡ Op.Switch width value.now default cases.now) }
{
    let value = value.duplicate(alloc)?;
    let cases = cases.duplicate(alloc)?;
    Ok(Op::Switch(width, value, default, cases))
}

/// An equal `Ret`.
fn copy_ret(alloc: Global, value: &Option<(Ty, Operand)>) -> Result<Op, NoMemory>
    ensures { IfOk result (λ o. o ≡ Op.Ret value.now) }
{
    let value = value.duplicate(alloc)?;
    Ok(Op::Ret(value))
}
