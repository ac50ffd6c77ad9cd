ghost use Rattle.std.specs.Prelude.{◌≡◌, ◌<◌, IfOk, length};
ghost use Rattle.std.specs.Option.{IfSome};
ghost use Rattle.no_verify_types.specs.Places.{placed};
ghost use Rattle.no_verify_structure.specs.Ending.{block_ending, ending_fault, ending_of, first_terminator, function_ending};
ghost use Rattle.no_verify_structure.specs.Finding.{first_at};

use crate::finding::fault_place;
use no_ir::{Block, Function, Instr, Module, NoMemory};
use no_module::is_terminator;
use no_verify_types::FaultPlace;

fn first_terminator(instrs: &[Instr]) -> Option<usize>
    ensures first { result ≡ first_terminator instrs.now }
    ensures within { IfSome result (λ i. i < length instrs.now) }
{
    for (i, instr) in instrs.iter().enumerate() {
        if is_terminator(&instr.op) {
            return Some(i);
        }
    }
    None
}

fn ending_fault(count: usize, first: Option<usize>) -> Option<usize>
    requires { IfSome first (λ i. i < count) }
    ensures { result ≡ ending_fault count first }
{
    match first {
        None => Some(count.saturating_sub(1)),
        Some(i) if i + 1 == count => None,
        Some(i) => Some(i),
    }
}

/// The first instruction of a block that is out of place: a terminator before the last instruction, or a last one that is none.
fn block_ending(block: &Block) -> Option<usize>
    ensures { result ≡ block_ending block.now }
{
    let instrs = block.instrs.as_slice();
    ending_fault(instrs.len(), first_terminator(instrs))
}

fn function_ending(function: &Function) -> Option<(usize, usize)>
    ensures { result ≡ function_ending function.now }
{
    for (b, block) in function.blocks.as_slice().iter().enumerate() {
        if let Some(i) = block_ending(block) {
            return Some((b, i));
        }
    }
    None
}

/// Where a block of a module first lacks its terminator, or has an earlier one.
pub fn ending_fault_in(program: &Module) -> Result<Option<FaultPlace>, NoMemory>
    ensures { IfOk result (λ p. p ≡ ending_of program.now) }
{
    for (k, function) in program.functions.as_slice().iter().enumerate() {
        if let Some((b, i)) = function_ending(function) {
            return Ok(Some(fault_place(k, b, i)?));
        }
    }
    Ok(None)
}
