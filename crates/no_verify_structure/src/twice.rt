ghost use Rattle.std.specs.Prelude.{◌≡◌, ◌++◌, ◌∷◌, ◌&&◌, [], IfOk, OnOk, None, not, true};
ghost use Rattle.std.specs.List.{flat_map};
ghost use Rattle.no_ir.specs.Naming.{is_known, with_name};
ghost use Rattle.no_verify_structure.specs.Finding.{first_at, first_place, unless};
ghost use Rattle.no_verify_structure.specs.Names.{block_registers, globals_names, instr_registers, parameters_of, result_registers};
ghost use Rattle.no_verify_structure.specs.Twice.{block_twice, function_twice, globals_differ, is_new, parameter_registers, params_differ, result_twice, twice_behind, twice_of};

use crate::finding::{fault_place, whole};
use crate::numbers::Numbers;
use no_ir::{Block, Function, GlobalVar, Instr, Module, Names, NoMemory, Ty};
use no_verify_types::FaultPlace;
use std::alloc::Global;

/// Puts a name in, and says whether it was not there yet. More than 2^32 - 2 names, for which no text has room, are want of memory.
#[tactic(auto, using(crate::proofs::Known::known_by_place))]
fn put_name(names: &mut Names, name: &[u8]) -> Result<bool, NoMemory>
    ensures all { OnOk result (names.new ≡ with_name names.old name.now) }
    ensures new { IfOk result (λ new. new ≡ not (is_known names.old name.now)) }
{
    if names.len() >= 0xFFFF_FFFE {
        return Err(NoMemory);
    }
    let new = names.find(name).is_none();
    let _number = names.number(name)?;
    Ok(new)
}

/// Puts the names of globals in, and says whether they differ.
fn put_globals(names: &mut Names, globals: &[GlobalVar]) -> Result<bool, NoMemory>
    requires { names.old ≡ [] }
    ensures differ { IfOk result (λ differ. differ ≡ globals_differ globals.now) }
    ensures all { IfOk result (λ differ. differ ≡ true → names.new ≡ globals_names globals.now) }
{
    for global in globals {
        if !put_name(names, global.name.as_slice())? {
            return Ok(false);
        }
    }
    Ok(true)
}

/// Puts the registers of parameters in, and says whether they differ.
fn put_parameters(registers: &mut Numbers, params: &[(u32, Ty)]) -> Result<bool, NoMemory>
    requires { registers.old ≡ [] }
    ensures differ { IfOk result (λ differ. differ ≡ params_differ params.now) }
    ensures all { IfOk result (λ differ. differ ≡ true → registers.new ≡ parameter_registers params.now) }
{
    for param in params {
        if !registers.put(param.0)? {
            return Ok(false);
        }
    }
    Ok(true)
}

/// Puts the register of a result in, and says whether it was not there yet.
fn put_result(registers: &mut Numbers, register: Option<u32>) -> Result<bool, NoMemory>
    ensures new { IfOk result (λ new. new ≡ is_new registers.old register) }
    ensures all { IfOk result (λ new. new ≡ true → registers.new ≡ registers.old ++ result_registers register) }
{
    match register {
        None => Ok(true),
        Some(r) => registers.put(r),
    }
}

/// Puts the results of a block in, up to the first that was there.
fn put_results(registers: &mut Numbers, instrs: &[Instr]) -> Result<Option<usize>, NoMemory>
    ensures first { IfOk result (λ first. first ≡ result_twice registers.old instrs.now) }
    ensures all { IfOk result (λ first. first ≡ None → registers.new ≡ registers.old ++ flat_map instr_registers instrs.now) }
{
    for (i, instr) in instrs.iter().enumerate() {
        if !put_result(registers, instr.result)? {
            return Ok(Some(i));
        }
    }
    Ok(None)
}

/// Puts the label and the results of a block in, up to the first that was there.
fn put_block(
    labels: &mut Numbers,
    registers: &mut Numbers,
    block: &Block,
) -> Result<Option<usize>, NoMemory>
    ensures first { IfOk result (λ first. first ≡ twice_behind labels.old registers.old block.now) }
    ensures labels { IfOk result (λ first. first ≡ None → labels.new ≡ labels.old ++ block.now.label ∷ []) }
    ensures registers { IfOk result (λ first. first ≡ None → registers.new ≡ registers.old ++ block_registers block.now) }
{
    if !labels.put(block.label)? {
        return Ok(Some(0));
    }
    put_results(registers, block.instrs.as_slice())
}

/// Where blocks define a name a second time. The registers are those of the parameters.
fn blocks_twice(
    registers: &mut Numbers,
    labels: &mut Numbers,
    function: &Function,
) -> Result<Option<(usize, usize)>, NoMemory>
    requires registers { registers.old ≡ parameters_of function.now }
    requires labels { labels.old ≡ [] }
    ensures { IfOk result (λ first. first ≡ first_at (block_twice function.now) 0 function.now.blocks) }
{
    for (b, block) in function.blocks.as_slice().iter().enumerate() {
        if let Some(i) = put_block(labels, registers, block)? {
            return Ok(Some((b, i)));
        }
    }
    Ok(None)
}

/// Where a function defines a register or a label a second time.
fn inside_twice(alloc: Global, function: &Function) -> Result<Option<(usize, usize)>, NoMemory>
    ensures { IfOk result (λ first. first ≡ unless (params_differ function.now.params) (first_at (block_twice function.now) 0 function.now.blocks)) }
{
    let mut registers = Numbers::new(alloc);
    if !put_parameters(&mut registers, function.params.as_slice())? {
        return Ok(Some((0, 0)));
    }
    let mut labels = Numbers::new(alloc);
    blocks_twice(&mut registers, &mut labels, function)
}

/// Where a function defines a name a second time, its own among these names.
fn function_twice(
    alloc: Global,
    names: &mut Names,
    function: &Function,
) -> Result<Option<(usize, usize)>, NoMemory>
    ensures first { IfOk result (λ first. first ≡ unless (not (is_known names.old function.now.name) && params_differ function.now.params) (first_at (block_twice function.now) 0 function.now.blocks)) }
    ensures names { IfOk result (λ first. first ≡ None → names.new ≡ names.old ++ function.now.name ∷ []) }
{
    if !put_name(names, function.name.as_slice())? {
        return Ok(Some((0, 0)));
    }
    inside_twice(alloc, function)
}

/// Where functions define a name a second time. The names are those of the globals.
fn functions_twice(
    alloc: Global,
    names: &mut Names,
    program: &Module,
) -> Result<Option<FaultPlace>, NoMemory>
    requires { names.old ≡ globals_names program.now.globals }
    ensures { IfOk result (λ p. p ≡ first_place (function_twice program.now) program.now.functions) }
{
    for (k, function) in program.functions.as_slice().iter().enumerate() {
        if let Some((b, i)) = function_twice(alloc, names, function)? {
            return Ok(Some(fault_place(k, b, i)?));
        }
    }
    Ok(None)
}

/// Where a module first defines a name a second time.
///
/// Globals and functions are one kind of names; registers and labels are two, in each function for itself.
pub fn twice_fault(alloc: Global, program: &Module) -> Result<Option<FaultPlace>, NoMemory>
    ensures { IfOk result (λ p. p ≡ twice_of program.now) }
{
    let mut names = Names::new(alloc)?;
    if !put_globals(&mut names, program.globals.as_slice())? {
        return Ok(Some(whole()));
    }
    functions_twice(alloc, &mut names, program)
}
