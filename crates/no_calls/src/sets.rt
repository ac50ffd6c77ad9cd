ghost use Rattle.std.specs.Prelude.{◌≡◌, ℕ, ◌+◌, ◌<◌, ◌≤◌, ◌^◌, ◌++◌, [], ◌∷◌, ◌&&◌, nat_lt, false, if◌then◌else◌, Some, slice_get, slice_index_or, length, vec_len, IfOk, OnOk};
ghost use Rattle.std.specs.List.{flat_map};
ghost use Rattle.no_ir.specs.declared.function.Function.{Function as Definition};
ghost use Rattle.no_verify_types.specs.Typing.{direct};
ghost use Rattle.no_calls.specs.Rows.{row};
ghost use Rattle.no_calls.specs.Shapes.{HasShapes, ShapeAdded, callee_sets, called_sets, function_shape, is_proper, op_sets, sets_of, shape_set};

use crate::shapes::{call_shape, function_shape, is_proper};
use no_ir::{Function, Instr, Names, NoMemory, Op, Operand, Ty};
use no_verify_types::direct;
use std::alloc::Global;

/// Adds the set of a shape, behind those of n functions, if there is one.
#[tactic(auto, using(crate::proofs::Shaping::place_below))]
fn add_set(sets: &mut Vec<u32>, n: usize, shapes: &Names, shape: &[u8]) -> Result<(), NoMemory>
    requires { n + length shapes.now < 2 ^ 32 }
    ensures { OnOk result (sets.new.items ≡ sets.old.items ++ shape_set n shapes.now shape.now) }
{
    match shapes.find(shape) {
        None => Ok(()),
        Some(c) => {
            sets.push((n + c) as u32)?;
            Ok(())
        }
    }
}

/// Adds the set of a function's shape, if its address is taken and each of its types is one of values.
fn add_function_set(
    alloc: Global,
    sets: &mut Vec<u32>,
    n: usize,
    shapes: &Names,
    taken: bool,
    function: &Function,
) -> Result<(), NoMemory>
    requires { n + length shapes.now < 2 ^ 32 }
    ensures { OnOk result (sets.new.items ≡ sets.old.items ++ (if taken && is_proper (function_shape function.now) then shape_set n shapes.now (function_shape function.now) else [])) }
{
    if !taken {
        return Ok(());
    }
    let shape = function_shape(alloc, function)?;
    if !is_proper(shape.as_slice()) {
        return Ok(());
    }
    add_set(sets, n, shapes, shape.as_slice())?;
    Ok(())
}

/// The sets that function k is in.
fn sets_of(
    alloc: Global,
    n: usize,
    shapes: &Names,
    taken: bool,
    k: u32,
    function: &Function,
) -> Result<Vec<u32>, NoMemory>
    requires { n + length shapes.now < 2 ^ 32 }
    ensures { IfOk result (λ sets. sets.items ≡ sets_of n shapes.now taken k function.now) }
{
    let mut sets = Vec::new(alloc);
    sets.push(k)?;
    add_function_set(alloc, &mut sets, n, shapes, taken, function)?;
    Ok(sets)
}

/// Whether a flag is set.
fn flag(flags: &[bool], k: usize) -> bool
    ensures { result ≡ slice_index_or flags.now k false }
{
    match flags.get(k) {
        Some(set) => *set,
        None => false,
    }
}

/// The sets that each function is in.
pub(crate) fn all_within(
    alloc: Global,
    functions: &[Function],
    taken: &[bool],
    shapes: &Names,
) -> Result<Vec<Vec<u32>>, NoMemory>
    requires { length functions.now + length shapes.now < 2 ^ 32 }
    ensures wide { IfOk result (λ rows. vec_len rows ≡ length functions.now) }
    ensures sets { IfOk result (λ rows. (k : ℕ) (g : Definition) → slice_get functions.now k ≡ Some g → row rows.items k ≡ sets_of (length functions.now) shapes.now (slice_index_or taken.now k false) k g) }
{
    let mut rows = Vec::new(alloc);
    for (k, function) in functions.iter().enumerate() {
        let sets = sets_of(
            alloc,
            functions.len(),
            shapes,
            flag(taken, k),
            k as u32,
            function,
        )?;
        rows.push(sets)?;
    }
    Ok(rows)
}

/// Adds the set of one of n functions.
fn add_named(sets: &mut Vec<u32>, n: usize, k: u32) -> Result<(), NoMemory>
    ensures { OnOk result (sets.new.items ≡ sets.old.items ++ (if nat_lt k n then k ∷ [] else [])) }
{
    if k as usize >= n {
        return Ok(());
    }
    sets.push(k)?;
    Ok(())
}

/// Adds the sets that a call calls.
fn add_callee_sets(
    alloc: Global,
    sets: &mut Vec<u32>,
    n: usize,
    shapes: &Names,
    t: &Ty,
    callee: &Operand,
    args: &[(Ty, Operand)],
) -> Result<(), NoMemory>
    requires { n + length shapes.now < 2 ^ 32 }
    ensures { OnOk result (sets.new.items ≡ sets.old.items ++ callee_sets n shapes.now t.now args.now (direct callee.now)) }
{
    match direct(callee) {
        Some(k) => add_named(sets, n, k),
        None => {
            let shape = call_shape(alloc, t, args)?;
            add_set(sets, n, shapes, shape.as_slice())?;
            Ok(())
        }
    }
}

fn add_op_sets(
    alloc: Global,
    sets: &mut Vec<u32>,
    n: usize,
    shapes: &Names,
    op: &Op,
) -> Result<(), NoMemory>
    requires { n + length shapes.now < 2 ^ 32 }
    ensures { OnOk result (sets.new.items ≡ sets.old.items ++ op_sets n shapes.now op.now) }
{
    match op {
        Op::Call(t, callee, args) => {
            add_callee_sets(alloc, sets, n, shapes, t, callee, args.as_slice())
        }
        _ => Ok(()),
    }
}

fn add_block_sets(
    alloc: Global,
    sets: &mut Vec<u32>,
    n: usize,
    shapes: &Names,
    instrs: &[Instr],
) -> Result<(), NoMemory>
    requires { n + length shapes.now < 2 ^ 32 }
    ensures { OnOk result (sets.new.items ≡ sets.old.items ++ flat_map (λ (i : Instr). op_sets n shapes.now i.op) instrs.now) }
{
    for instr in instrs {
        add_op_sets(alloc, sets, n, shapes, &instr.op)?;
    }
    Ok(())
}

/// The sets that a function calls.
fn called_sets(
    alloc: Global,
    n: usize,
    shapes: &Names,
    function: &Function,
) -> Result<Vec<u32>, NoMemory>
    requires { n + length shapes.now < 2 ^ 32 }
    ensures { IfOk result (λ sets. sets.items ≡ called_sets n shapes.now function.now) }
{
    let mut sets = Vec::new(alloc);
    for block in function.blocks.as_slice() {
        add_block_sets(alloc, &mut sets, n, shapes, block.instrs.as_slice())?;
    }
    Ok(sets)
}

/// The sets that each function calls.
pub(crate) fn all_called(
    alloc: Global,
    functions: &[Function],
    shapes: &Names,
) -> Result<Vec<Vec<u32>>, NoMemory>
    requires { length functions.now + length shapes.now < 2 ^ 32 }
    ensures wide { IfOk result (λ rows. vec_len rows ≡ length functions.now) }
    ensures sets { IfOk result (λ rows. (k : ℕ) (g : Definition) → slice_get functions.now k ≡ Some g → row rows.items k ≡ called_sets (length functions.now) shapes.now g) }
{
    let mut rows = Vec::new(alloc);
    for function in functions {
        rows.push(called_sets(alloc, functions.len(), shapes, function)?)?;
    }
    Ok(rows)
}

/// Adds the shape of a function, if its address is taken and each of its types is one of values.
fn add_shape(
    alloc: Global,
    function: &Function,
    taken: bool,
    shapes: &mut Names,
) -> Result<(), NoMemory>
    requires { length shapes.old + 1 < 2 ^ 32 }
    ensures { OnOk result (ShapeAdded function.now taken shapes.old shapes.new) }
{
    if !taken {
        return Ok(());
    }
    let shape = function_shape(alloc, function)?;
    if !is_proper(shape.as_slice()) {
        return Ok(());
    }
    shapes.number(shape.as_slice())?;
    Ok(())
}

/// The shapes of the functions whose address is taken.
pub(crate) fn all_shapes(
    alloc: Global,
    functions: &[Function],
    taken: &[bool],
) -> Result<Names, NoMemory>
    requires { length functions.now + 1 < 2 ^ 32 }
    ensures shapes { IfOk result (λ shapes. HasShapes functions.now taken.now (length functions.now) shapes) }
    ensures few { IfOk result (λ shapes. length shapes ≤ length functions.now) }
{
    let mut shapes = Names::new(alloc)?;
    for (k, function) in functions.iter().enumerate() {
        add_shape(alloc, function, flag(taken, k), &mut shapes)?;
    }
    Ok(shapes)
}
