ghost use Rattle.std.specs.Prelude.{◌≡◌, IfOk};
ghost use Rattle.std.specs.List.{list_all};
ghost use Rattle.no_ir.specs.declared.instruction.Instr.{Instr};
ghost use Rattle.no_verify_types.specs.Constants.{global_typed};
ghost use Rattle.no_verify_types.specs.Places.{first_found, function_fault, placed, type_fault_of, typed, wrong_among, wrong_in};
ghost use Rattle.no_verify_types.specs.Typing.{op_typed};

use crate::FaultPlace;
use crate::constants::global_typed;
use crate::registers::register_types;
use crate::typing::{head_typed, op_typed};
use no_ir::{Block, Function, GlobalVar, Module, NoMemory, Role, Ty};
use no_module::Scalar;
use std::alloc::Global;

fn globals_typed(program: &Module, role: Role, globals: &[GlobalVar]) -> bool
    ensures { result ≡ list_all (global_typed program.now role) globals.now }
{
    for global in globals {
        if !global_typed(program, role, global) {
            return false;
        }
    }
    true
}

/// The first instruction of a block whose types are wrong, in a function that gives `given`, by the types of its registers.
fn block_fault(
    alloc: Global,
    program: &Module,
    role: Role,
    given: &Ty,
    types: &[Option<Scalar>],
    block: &Block,
) -> Result<Option<usize>, NoMemory>
    ensures { IfOk result (λ place. place ≡ wrong_in (λ (i : Instr). op_typed program.now role given.now types.now i.op) block.now) }
{
    for (place, instr) in block.instrs.as_slice().iter().enumerate() {
        if !op_typed(alloc, program, role, given, types, &instr.op)? {
            return Ok(Some(place));
        }
    }
    Ok(None)
}

/// The first instruction whose types are wrong, by block and place.
fn blocks_fault(
    alloc: Global,
    program: &Module,
    role: Role,
    given: &Ty,
    types: &[Option<Scalar>],
    blocks: &[Block],
) -> Result<Option<(usize, usize)>, NoMemory>
    ensures { IfOk result (λ place. place ≡ wrong_among (λ (i : Instr). op_typed program.now role given.now types.now i.op) blocks.now) }
{
    for (number, block) in blocks.iter().enumerate() {
        if let Some(place) = block_fault(alloc, program, role, given, types, block)? {
            return Ok(Some((number, place)));
        }
    }
    Ok(None)
}

/// Where in a function the types are first wrong.
#[tactic(auto, using(crate::proofs::Firsts::function_found))]
fn function_fault(
    alloc: Global,
    program: &Module,
    role: Role,
    function: &Function,
) -> Result<Option<(usize, usize)>, NoMemory>
    ensures { IfOk result (λ place. place ≡ function_fault (typed program.now role) function.now) }
{
    if !head_typed(function) {
        return Ok(Some((0, 0)));
    }
    let types = register_types(alloc, function)?;
    let place = blocks_fault(
        alloc,
        program,
        role,
        &function.result,
        types.as_slice(),
        function.blocks.as_slice(),
    )?;
    Ok(place)
}

/// The first function with a fault, and where in it.
fn functions_fault(
    alloc: Global,
    program: &Module,
    role: Role,
    functions: &[Function],
) -> Result<Option<(usize, (usize, usize))>, NoMemory>
    ensures { IfOk result (λ place. place ≡ first_found (function_fault (typed program.now role)) 0 functions.now) }
{
    for (number, function) in functions.iter().enumerate() {
        if let Some(place) = function_fault(alloc, program, role, function)? {
            return Ok(Some((number, place)));
        }
    }
    Ok(None)
}

/// A number of a place as such; there are no texts with so many things that it does not fit.
pub(crate) fn counted(number: usize) -> Result<u32, NoMemory>
    ensures { IfOk result (λ n. n ≡ number) }
{
    match u32::try_from(number) {
        Ok(number) => Ok(number),
        Err(_) => Err(NoMemory),
    }
}

fn placed(found: Option<(usize, (usize, usize))>) -> Result<Option<FaultPlace>, NoMemory>
    ensures { IfOk result (λ place. place ≡ placed found) }
{
    match found {
        None => Ok(None),
        Some((function, (block, place))) => {
            let function = counted(function)?;
            let block = counted(block)?;
            let place = counted(place)?;
            Ok(Some(FaultPlace {
                function,
                block,
                place,
            }))
        }
    }
}

/// Where the types of a module first disagree: an operand, an index, a first value or a result has another type than its place
/// asks. Globals come first, all at 0, 0, 0; the result and the parameters of a function stand at 0, 0 in it. `None` says that
/// all types agree.
///
/// `NoMemory` says that memory was not there, or that the place has a number of 2^32 or more.
pub fn type_fault(
    alloc: Global,
    program: &Module,
    role: Role,
) -> Result<Option<FaultPlace>, NoMemory>
    ensures { IfOk result (λ place. place ≡ type_fault_of program.now role) }
{
    if !globals_typed(program, role, program.globals.as_slice()) {
        return Ok(Some(FaultPlace {
            function: 0,
            block: 0,
            place: 0,
        }));
    }
    placed(functions_fault(alloc, program, role, program.functions.as_slice())?)
}
