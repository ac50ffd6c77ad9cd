ghost use Rattle.std.specs.Prelude.{◌≡◌, IfOk};
ghost use Rattle.no_verify_types.specs.Places.{fault_at};
ghost use Rattle.no_verify.specs.Kinds.{IsUnassignedPlace};

use no_ir::{Function, NoMemory};
use no_verify_paths::assigned;
use no_verify_types::FaultPlace;
use std::alloc::Global;

/// The place of a use in a function. 2^32 functions and more, for which no text has room, are want of memory.
fn use_at(function: usize, block: u32, place: u32) -> Result<FaultPlace, NoMemory>
    ensures { IfOk result (λ p. p ≡ fault_at function block place) }
{
    match u32::try_from(function) {
        Ok(function) => Ok(FaultPlace {
            function,
            block,
            place,
        }),
        Err(_) => Err(NoMemory),
    }
}

/// The first use of a register that some path of its function reaches unassigned.
pub(crate) fn unassigned_fault(
    alloc: Global,
    functions: &[Function],
) -> Result<Option<FaultPlace>, NoMemory>
    ensures { IfOk result (λ p. IsUnassignedPlace functions.now p) }
{
    for (k, function) in functions.iter().enumerate() {
        if let Some((block, place)) = assigned(alloc, function)? {
            return Ok(Some(use_at(k, block, place)?));
        }
    }
    Ok(None)
}
