ghost use Rattle.std.specs.Prelude.{◌≡◌, ◌<◌, ℕ, List, Some, false, length, slice_get, slice_index_or};
ghost use Rattle.std.specs.Option.{option_copied};
ghost use Rattle.no_ir.specs.declared.instruction.Instr.{Instr};
ghost use Rattle.no_ir.specs.declared.instruction.Op.TheVariants as op;
ghost use Rattle.no_ir.specs.declared.instruction.Operand.{Operand};
ghost use Rattle.no_ir.specs.declared.types.Ty.{Ty};
ghost use Rattle.no_layout.specs.declared.memory.Regions.{Regions};
ghost use Rattle.no_code.specs.declared.code.Place.{Place};
ghost use Rattle.no_semantics.specs.Calls.{are_passed, at_address, function_number, has_type, is_passed, pointed};
ghost use Rattle.no_semantics.specs.Taken.{is_callable};
ghost use Rattle.no_taken.specs.Marked.{AreTaken};
ghost use Rattle.no_machine.specs.Outside.{instr_of, reach_of};
ghost use Rattle.no_machine.specs.Turning.{program_with};

use no_code::{Code, Place};
use no_ir::{Function, Instr, Op, Operand, Role, Ty};
use no_module::{Scalar, agree, same_result};
use no_semantics::Sound;

/// Where the first function stands.
const FUNCTIONS: u64 = 0xF000_0000;

/// Whether an argument has the type of a parameter.
fn is_passed(arg: &(Ty, Operand), param: &(u32, Ty)) -> bool
    ensures { result ≡ is_passed arg.now param.now }
{
    agree(Scalar::of(&arg.0), Scalar::of(&param.1))
}

/// Whether there are as many arguments as parameters, each of its type.
#[tactic(auto, using(no_semantics::proofs::Passing::none_left))]
fn are_passed(args: &[(Ty, Operand)], params: &[(u32, Ty)]) -> bool
    ensures { result ≡ are_passed args.now params.now }
{
    let mut rest = params;
    for arg in args {
        match rest {
            [param, more @ ..] if is_passed(arg, param) => rest = more,
            _ => return false,
        }
    }
    rest.is_empty()
}

/// Whether a call is one of the function's type.
fn has_type(t: &Ty, args: &[(Ty, Operand)], function: &Function) -> bool
    ensures { result ≡ has_type t.now args.now function.now }
{
    same_result(t, &function.result) && are_passed(args, function.params.as_slice())
}

/// The number of the function at an address.
fn function_number(at: u64) -> Option<u64>
    ensures { result ≡ function_number at }
{
    if at < FUNCTIONS {
        return None;
    }
    if (at - FUNCTIONS).is_multiple_of(16) {
        Some((at - FUNCTIONS) / 16)
    } else {
        None
    }
}

/// The flag of this number, and false where there is none.
fn flag(flags: &[bool], k: u64) -> bool
    ensures { result ≡ slice_index_or flags.now k false }
{
    flags.get(k as usize).copied().unwrap_or(false)
}

/// Whether function k may be called through a pointer.
fn is_callable(sound: &Sound, taken: &[bool], k: u64, function: &Function) -> bool
    requires taken { AreTaken sound.now.«module» taken.now }
    requires within { k < length sound.now.«module».functions }
    ensures { result ≡ is_callable sound.now.«module» sound.now.role k function.now }
{
    match sound.role() {
        Role::Source => flag(taken, k),
        Role::Part => function.device_address.is_some(),
    }
}

/// Function k, where it may be called so through a pointer.
fn pointed(sound: &Sound, taken: &[bool], t: &Ty, args: &[(Ty, Operand)], k: u64) -> Option<u64>
    requires { AreTaken sound.now.«module» taken.now }
    ensures { (addresses : List ℕ) → (regions : Regions) → reach_of result ≡ pointed (program_with sound.now addresses regions) t.now args.now k (slice_get sound.now.«module».functions k) }
{
    match sound.module().functions.get(k as usize) {
        Some(function) => {
            if is_callable(sound, taken, k, function) && has_type(t, args, function) {
                Some(k)
            } else {
                None
            }
        }
        None => None,
    }
}

/// The function at an address, where it may be called so through a pointer.
fn reach(sound: &Sound, taken: &[bool], t: &Ty, args: &[(Ty, Operand)], at: u64) -> Option<u64>
    requires { AreTaken sound.now.«module» taken.now }
    ensures { (addresses : List ℕ) → (regions : Regions) → reach_of result ≡ at_address (program_with sound.now addresses regions) t.now args.now at }
{
    match function_number(at) {
        Some(k) => pointed(sound, taken, t, args, k),
        None => None,
    }
}

/// The instruction of a place.
fn instr_of<'a>(sound: &'a Sound, place: Place) -> Option<&'a Instr>
    ensures { option_copied result ≡ instr_of sound.now.«module» place }
{
    let block = sound.block(u64::from(place.function), u64::from(place.block))?;
    block.instrs.get(place.at as usize)
}

/// The place of a cell.
pub(crate) fn place_at(code: &Code, at: usize) -> Place
    requires { at < length code.now.places }
    ensures { slice_get code.now.places at ≡ Some result }
{
    code.places.as_slice()[at]
}

/// The function that the call of a cell through a pointer reaches, where it may be called so.
pub(crate) fn reached(
    sound: &Sound,
    code: &Code,
    taken: &[bool],
    at: usize,
    address: u64,
) -> Option<u64>
    requires taken { AreTaken sound.now.«module» taken.now }
    requires within { at < length code.now.places }
    ensures { (place : Place) → slice_get code.now.places at ≡ Some place → (i : Instr) → instr_of sound.now.«module» place ≡ Some i → (t : Ty) → (callee : Operand) → (args : List (Ty × Operand)) → i.op ≡ op.Call t callee args → (addresses : List ℕ) → (regions : Regions) → reach_of result ≡ at_address (program_with sound.now addresses regions) t args address }
{
    let place = place_at(code, at);
    match instr_of(sound, place) {
        Some(instr) => match &instr.op {
            Op::Call(t, _, args) => reach(sound, taken, t, args.as_slice(), address),
            _ => None,
        },
        None => None,
    }
}
