ghost use Rattle.std.specs.Prelude.{◌≡◌, IfOk, false, get_or, replicate, set, true};
ghost use Rattle.no_verify_types.specs.Named.{first_unknown, is_named, is_unknown, module_names};
ghost use Rattle.no_verify_types.specs.Places.{at_function, external_fault_of};
ghost use Rattle.no_verify_types.specs.Tables.{marked};

use crate::FaultPlace;
use crate::faults::counted;
use crate::named::module_names;
use no_ir::{Function, Module, NoMemory, Role};
use no_module::{is_declared, is_external};
use std::alloc::Global;

/// So many functions without a mark.
fn no_marks(alloc: Global, count: usize) -> Result<Vec<bool>, NoMemory>
    ensures { IfOk result (λ marks. marks.items ≡ replicate count false) }
{
    let mut marks = Vec::new(alloc);
    for _ in 0..count {
        marks.push(false)?;
    }
    Ok(marks)
}

/// One function is marked, where there is such a function.
#[tactic(auto, using(std::proofs::lemmas::List::set_past))]
fn write_mark(marks: &mut Vec<bool>, number: u32)
    ensures { marks.new.items ≡ set marks.old.items number true }
{
    if (number as usize) < marks.len() {
        marks[number as usize] = true;
    }
}

fn write_marks(marks: &mut Vec<bool>, numbers: &[u32])
    ensures { marks.new.items ≡ marked marks.old.items numbers.now }
{
    for number in numbers {
        write_mark(marks, *number);
    }
}

fn is_unknown(role: Role, used: bool, function: &Function) -> bool
    ensures { result ≡ is_unknown role used function.now }
{
    used && (is_declared(function)
        && !is_external(
            role,
            function.name.as_slice(),
            &function.result,
            function.params.as_slice(),
        ))
}

fn mark_at(marks: &[bool], number: usize) -> bool
    ensures { result ≡ get_or marks.now number false }
{
    if number < marks.len() {
        marks[number]
    } else {
        false
    }
}

/// The first declared function that is marked and is no external.
fn first_unknown(role: Role, marks: &[bool], functions: &[Function]) -> Option<usize>
    ensures { result ≡ first_unknown role (λ k. get_or marks.now k false) 0 functions.now }
{
    for (number, function) in functions.iter().enumerate() {
        if is_unknown(role, mark_at(marks, number), function) {
            return Some(number);
        }
    }
    None
}

/// The first declared function that the module names.
fn unknown_function(alloc: Global, program: &Module, role: Role) -> Result<Option<usize>, NoMemory>
    ensures { IfOk result (λ found. found ≡ first_unknown role (is_named (module_names program.now)) 0 program.now.functions) }
{
    let names = module_names(alloc, program)?;
    let mut marks = no_marks(alloc, program.functions.len())?;
    write_marks(&mut marks, names.as_slice());
    Ok(first_unknown(role, marks.as_slice(), program.functions.as_slice()))
}

/// The first declared function that is used, which is named anywhere in the module, and that is not one that a module may
/// declare with its type. `None` says that there is none. Its place is 0, 0 in the function.
///
/// `NoMemory` says that memory was not there, or that the function has a number of 2^32 or more.
pub fn external_fault(
    alloc: Global,
    program: &Module,
    role: Role,
) -> Result<Option<FaultPlace>, NoMemory>
    ensures { IfOk result (λ place. place ≡ external_fault_of program.now role) }
{
    match unknown_function(alloc, program, role)? {
        None => Ok(None),
        Some(number) => {
            let function = counted(number)?;
            Ok(Some(FaultPlace {
                function,
                block: 0,
                place: 0,
            }))
        }
    }
}
