ghost use Rattle.std.specs.Prelude.{◌≡◌, ℕ, ◌-◌, ◌<◌, ◌^◌, ◌++◌, [], ◌∷◌, if◌then◌else◌, IfOk, OnOk, length, slice_get};
ghost use Rattle.std.specs.List.{list_any};
ghost use Rattle.no_filter.specs.Reasons.{callee_volatile, external_at, inputs, is_input, is_one, is_true, is_volatile, memory_volatile, op_volatile, pinned, reads_input, those_from, volatiles};
ghost use Rattle.no_verify_types.specs.Typing.{number_of};

use no_ir::{Const, Function, Instr, Module, NoMemory, Op, Operand, Role, Ty};
use no_module::{External, declared_external};
use no_verify_types::direct;
use std::alloc::Global;

/// Whether it is the declared function that reads a byte of the input.
fn reads_input(function: &Function) -> bool
    ensures { result ≡ reads_input function.now }
{
    matches!(
        declared_external(Role::Source, function),
        Some(External::GetChar)
    )
}

/// Whether an operand is written as 1.
fn is_one(operand: &Operand) -> bool
    ensures { result ≡ is_one (number_of operand.now) }
{
    match operand {
        Operand::Const(Const::Int(number)) => *number == 1,
        _ => false,
    }
}

fn is_true_last(args: &[(Ty, Operand)]) -> bool
    ensures { result ≡ is_true (slice_get args.now (length args.now - 1)) }
{
    match args.last() {
        Some(arg) => is_one(&arg.1),
        None => false,
    }
}

fn memory_volatile(external: Option<External>, args: &[(Ty, Operand)]) -> bool
    ensures { result ≡ memory_volatile external args.now }
{
    match external {
        Some(External::Move) => is_true_last(args),
        Some(External::Set) => is_true_last(args),
        _ => false,
    }
}

fn external_at(program: &Module, k: u32) -> Option<External>
    ensures { result ≡ external_at (slice_get program.now.functions k) }
{
    match program.functions.get(k as usize) {
        Some(function) => declared_external(Role::Source, function),
        None => None,
    }
}

fn callee_volatile(program: &Module, args: &[(Ty, Operand)], callee: Option<u32>) -> bool
    ensures { result ≡ callee_volatile program.now args.now callee }
{
    match callee {
        Some(k) => memory_volatile(external_at(program, k), args),
        None => false,
    }
}

fn op_volatile(program: &Module, op: &Op) -> bool
    ensures { result ≡ op_volatile program.now op.now }
{
    match op {
        Op::Load(volatile, _, _) => *volatile,
        Op::Store(volatile, _, _, _) => *volatile,
        Op::Call(_, callee, args) => callee_volatile(program, args.as_slice(), direct(callee)),
        _ => false,
    }
}

fn block_volatile(program: &Module, instrs: &[Instr]) -> bool
    ensures { result ≡ list_any (λ (i : Instr). op_volatile program.now i.op) instrs.now }
{
    for instr in instrs {
        if op_volatile(program, &instr.op) {
            return true;
        }
    }
    false
}

/// Whether a function has a volatile access.
fn is_volatile(program: &Module, function: &Function) -> bool
    ensures { result ≡ is_volatile program.now function.now }
{
    for block in function.blocks.as_slice() {
        if block_volatile(program, block.instrs.as_slice()) {
            return true;
        }
    }
    false
}

/// Adds a number, if it is one of those in question.
fn add_if(numbers: &mut Vec<u32>, k: usize, test: bool) -> Result<(), NoMemory>
    requires { k < 2 ^ 32 }
    ensures { OnOk result (numbers.new.items ≡ numbers.old.items ++ (if test then k ∷ [] else [])) }
{
    if !test {
        return Ok(());
    }
    numbers.push(k as u32)?;
    Ok(())
}

/// The functions that read the input.
pub(crate) fn inputs(alloc: Global, program: &Module) -> Result<Vec<u32>, NoMemory>
    requires { length program.now.functions < 2 ^ 32 }
    ensures { IfOk result (λ numbers. numbers.items ≡ inputs program.now) }
{
    let mut numbers = Vec::new(alloc);
    for (k, function) in program.functions.as_slice().iter().enumerate() {
        add_if(&mut numbers, k, reads_input(function))?;
    }
    Ok(numbers)
}

/// The functions with a volatile access.
pub(crate) fn volatiles(alloc: Global, program: &Module) -> Result<Vec<u32>, NoMemory>
    requires { length program.now.functions < 2 ^ 32 }
    ensures { IfOk result (λ numbers. numbers.items ≡ volatiles program.now) }
{
    let mut numbers = Vec::new(alloc);
    for (k, function) in program.functions.as_slice().iter().enumerate() {
        add_if(&mut numbers, k, is_volatile(program, function))?;
    }
    Ok(numbers)
}

/// The functions that an attribute pins to the device.
pub(crate) fn pinned(alloc: Global, program: &Module) -> Result<Vec<u32>, NoMemory>
    requires { length program.now.functions < 2 ^ 32 }
    ensures { IfOk result (λ numbers. numbers.items ≡ pinned program.now) }
{
    let mut numbers = Vec::new(alloc);
    for (k, function) in program.functions.as_slice().iter().enumerate() {
        add_if(&mut numbers, k, function.bound)?;
    }
    Ok(numbers)
}
