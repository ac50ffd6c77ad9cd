ghost use Rattle.std.specs.Prelude.{◌≡◌, [], ◌∷◌, ◌++◌, OnOk};
ghost use Rattle.std.specs.List.{flat_map};
ghost use Rattle.no_module.specs.Left.{operands_left};
ghost use Rattle.no_verify_paths.specs.Paths.{pair_use, phi_uses, registers_of, uses};

use no_ir::{NoMemory, Op, Operand};
use no_module::{Operands, is_phi};

/// Adds the register that an operand names.
fn list_register(operand: &Operand, out: &mut Vec<u32>) -> Result<(), NoMemory>
    ensures { OnOk result (out.new.items ≡ out.old.items ++ registers_of operand.now) }
{
    if let Operand::Reg(register) = operand {
        out.push(*register)?;
    }
    Ok(())
}

/// Adds the registers that operands name.
#[tactic(auto, using(crate::proofs::Taking::registers_taken))]
fn list_registers(operands: Operands<'_>, out: &mut Vec<u32>) -> Result<(), NoMemory>
    ensures { OnOk result (out.new.items ≡ out.old.items ++ flat_map registers_of (operands_left operands.entry)) }
{
    let mut left = operands;
    while let Some((operand, more)) = left.split_first() {
        list_register(operand, out)?;
        left = more;
    }
    Ok(())
}

/// Adds the registers that an instruction uses where it stands.
#[tactic(auto, unfolding(crate::specs::Paths::uses))]
pub(crate) fn list_uses(op: &Op, out: &mut Vec<u32>) -> Result<(), NoMemory>
    ensures { OnOk result (out.new.items ≡ out.old.items ++ uses op.now) }
{
    if is_phi(op) {
        return Ok(());
    }
    list_registers(Operands::of(op), out)
}

fn list_pair(pair: &(Operand, u32), out: &mut Vec<(u32, u32)>) -> Result<(), NoMemory>
    ensures { OnOk result (out.new.items ≡ out.old.items ++ pair_use pair.now) }
{
    if let Operand::Reg(register) = &pair.0 {
        out.push((*register, pair.1))?;
    }
    Ok(())
}

fn list_pairs(pairs: &[(Operand, u32)], out: &mut Vec<(u32, u32)>) -> Result<(), NoMemory>
    ensures { OnOk result (out.new.items ≡ out.old.items ++ flat_map pair_use pairs.now) }
{
    for pair in pairs {
        list_pair(pair, out)?;
    }
    Ok(())
}

/// Adds each register that a phi uses, with the label at whose block's end it does.
#[tactic(auto, unfolding(crate::specs::Paths::phi_uses))]
pub(crate) fn list_phi_uses(op: &Op, out: &mut Vec<(u32, u32)>) -> Result<(), NoMemory>
    ensures { OnOk result (out.new.items ≡ out.old.items ++ phi_uses op.now) }
{
    match op {
        Op::Phi(_, pairs) => list_pairs(pairs.as_slice(), out),
        _ => Ok(()),
    }
}
