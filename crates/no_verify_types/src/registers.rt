ghost use Rattle.std.specs.Prelude.{◌≡◌, ◌++◌, map, IfOk, None, OnOk, replicate, set};
ghost use Rattle.std.specs.List.{flat_map};
ghost use Rattle.no_verify_types.specs.Registers.{all_defined, block_defined, instr_defined, param_defined, register_types, result_of, type_at};
ghost use Rattle.no_verify_types.specs.Tables.{overwritten};

use no_ir::{Block, Function, Instr, NoMemory, Op, Ty};
use no_module::Scalar;
use std::alloc::Global;

/// The type of an instruction's result; none where it gives nothing, or nothing that a register holds.
pub fn result_of(op: &Op) -> Option<Scalar>
    ensures { result ≡ result_of op.now }
{
    match op {
        Op::Binary(_, width, _, _) => Scalar::integer(*width),
        Op::Compare(_, _, _, _) => Some(Scalar::Int(1)),
        Op::Cast(_, _, _, into) => Scalar::of(into),
        Op::Freeze(t, _) => Scalar::of(t),
        Op::Select(_, t, _, _) => Scalar::of(t),
        Op::Phi(t, _) => Scalar::of(t),
        Op::Alloca(_, _, _) => Some(Scalar::Ptr),
        Op::Load(_, t, _) => Scalar::of(t),
        Op::Gep(_, _, _) => Some(Scalar::Ptr),
        Op::Call(t, _, _) => Scalar::of(t),
        Op::Store(_, _, _, _)
        | Op::Br(_)
        | Op::CondBr(_, _, _)
        | Op::Switch(_, _, _, _)
        | Op::Ret(_)
        | Op::Unreachable => None,
    }
}

fn add_params(all: &mut Vec<(u32, Option<Scalar>)>, params: &[(u32, Ty)]) -> Result<(), NoMemory>
    ensures { OnOk result (all.new.items ≡ all.old.items ++ map param_defined params.now) }
{
    for param in params {
        all.push((param.0, Scalar::of(&param.1)))?;
    }
    Ok(())
}

fn add_instr(all: &mut Vec<(u32, Option<Scalar>)>, instr: &Instr) -> Result<(), NoMemory>
    ensures { OnOk result (all.new.items ≡ all.old.items ++ instr_defined instr.now) }
{
    match instr.result {
        Some(register) => {
            all.push((register, result_of(&instr.op)))?;
            Ok(())
        }
        None => Ok(()),
    }
}

fn add_block(all: &mut Vec<(u32, Option<Scalar>)>, instrs: &[Instr]) -> Result<(), NoMemory>
    ensures { OnOk result (all.new.items ≡ all.old.items ++ flat_map instr_defined instrs.now) }
{
    for instr in instrs {
        add_instr(all, instr)?;
    }
    Ok(())
}

fn add_blocks(all: &mut Vec<(u32, Option<Scalar>)>, blocks: &[Block]) -> Result<(), NoMemory>
    ensures { OnOk result (all.new.items ≡ all.old.items ++ flat_map block_defined blocks.now) }
{
    for block in blocks {
        add_block(all, block.instrs.as_slice())?;
    }
    Ok(())
}

/// What a function defines, each register with its type: the parameters, and then the results in order.
fn all_defined(alloc: Global, function: &Function) -> Result<Vec<(u32, Option<Scalar>)>, NoMemory>
    ensures { IfOk result (λ all. all.items ≡ all_defined function.now) }
{
    let mut all = Vec::new(alloc);
    add_params(&mut all, function.params.as_slice())?;
    add_blocks(&mut all, function.blocks.as_slice())?;
    Ok(all)
}

/// The type of one register is written, where there is such a register.
#[tactic(auto, using(std::proofs::lemmas::List::set_past))]
fn write_type(types: &mut Vec<Option<Scalar>>, register: u32, scalar: Option<Scalar>)
    ensures { types.new.items ≡ set types.old.items register scalar }
{
    if (register as usize) < types.len() {
        types[register as usize] = scalar;
    }
}

/// The types are written from the last to the first, so that of two for one register the first counts.
#[tactic(auto, using(crate::proofs::Tables::overwritten_last))]
fn write_types(types: &mut Vec<Option<Scalar>>, defined: Vec<(u32, Option<Scalar>)>)
    ensures { types.new.items ≡ overwritten types.old.items defined.items }
{
    let mut rest = defined;
    while let Some((register, scalar)) = rest.pop() {
        write_type(types, register, scalar);
    }
}

/// So many registers without a type.
fn no_types(alloc: Global, count: usize) -> Result<Vec<Option<Scalar>>, NoMemory>
    ensures { IfOk result (λ types. types.items ≡ replicate count None) }
{
    let mut types = Vec::new(alloc);
    for _ in 0..count {
        types.push(None)?;
    }
    Ok(types)
}

/// The type of each register of a function, in their order.
#[tactic(auto, using(crate::proofs::Tables::overwritten_all))]
pub(crate) fn register_types(
    alloc: Global,
    function: &Function,
) -> Result<Vec<Option<Scalar>>, NoMemory>
    ensures { IfOk result (λ types. types.items ≡ register_types function.now) }
{
    let defined = all_defined(alloc, function)?;
    let mut types = no_types(alloc, function.registers.len())?;
    write_types(&mut types, defined);
    Ok(types)
}

/// The type of a register by the types of all.
pub(crate) fn type_at(types: &[Option<Scalar>], register: u32) -> Option<Scalar>
    ensures { result ≡ type_at types.now register }
{
    match types.get(register as usize) {
        Some(scalar) => *scalar,
        None => None,
    }
}
