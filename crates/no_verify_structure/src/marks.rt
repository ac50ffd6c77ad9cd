ghost use Rattle.std.specs.Prelude.{◌≡◌, ◌++◌, IfOk, None, true};
ghost use Rattle.no_verify_structure.specs.Finding.{first_instr, first_place, unless};
ghost use Rattle.no_verify_structure.specs.Marks.{address_fits, address_list, addresses_of, calls_helper, function_marks, functions_called, inserted_binary, inserted_cast, instr_marked, is_helper, is_helper_name, is_no_function, marks_of, may_be_inserted, part_marks};

use crate::finding::{InstrRule, fault_place, first_instr, whole};
use crate::numbers::Numbers;
use crate::parts::{NameRule, each_keeps, operand_keeps, operands_keep};
use no_ir::{BinOp, CastOp, Function, Instr, Module, NoMemory, Op, Place, Role, Symbol};
use no_module::{Operands, is_declared};
use no_verify_types::{FaultPlace, direct, is_intrinsic};
use std::alloc::Global;

/// That no operand names a function.
#[derive(Clone, Copy)]
struct Free;

impl NameRule for Free {
    ghost use Rattle.std.specs.Prelude.{true};
    ghost use Rattle.no_verify_structure.specs.Marks.{names_no_function};

    ghost ready = { λ s. true };

    ghost registers = { λ s r. true };

    ghost places = { λ s. names_no_function };

    fn keeps_register(&self, _register: u32) -> bool {
        true
    }

    fn keeps_place(&self, place: &Place) -> bool {
        is_no_function(&place.symbol)
    }
}

/// The marks that an instruction of a part may have.
#[derive(Clone, Copy)]
struct Marked<'a> {
    program: &'a Module,
}

impl<'a> InstrRule for Marked<'a> {
    ghost use Rattle.std.specs.Prelude.{true};
    ghost use Rattle.no_verify_structure.specs.Marks.{instr_marked};

    ghost ready = { λ s. true };

    ghost keeps = { λ s. instr_marked s.program.now };

    fn keeps(&self, instr: &Instr) -> bool {
        (!instr.inserted || may_be_inserted(self.program, &instr.op)) && functions_called(&instr.op)
    }
}

fn is_no_function(symbol: &Symbol) -> bool
    ensures { result ≡ is_no_function symbol.now }
{
    !matches!(symbol, Symbol::Function(_))
}

fn inserted_binary(op: BinOp) -> bool
    ensures { result ≡ inserted_binary op }
{
    matches!(op, BinOp::Add | BinOp::Mul)
}

fn inserted_cast(op: CastOp) -> bool
    ensures { result ≡ inserted_cast op }
{
    !matches!(op, CastOp::BitCast)
}

fn is_helper_name(name: &[u8]) -> bool
    ensures { result ≡ is_helper_name name.now }
{
    name == b"llvm.bswap.i16".as_slice()
        || (name == b"llvm.bswap.i32".as_slice()
            || (name == b"llvm.bswap.i64".as_slice() || name == b"no.map".as_slice()))
}

fn is_helper(function: &Function) -> bool
    ensures { result ≡ is_helper (Some function.now) }
{
    is_declared(function) && is_helper_name(function.name.as_slice())
}

fn calls_helper(program: &Module, callee: Option<u32>) -> bool
    ensures { result ≡ calls_helper program.now callee }
{
    match callee {
        None => false,
        Some(k) => match program.functions.get(k as usize) {
            None => false,
            Some(function) => is_helper(function),
        },
    }
}

fn may_be_inserted(program: &Module, op: &Op) -> bool
    ensures { result ≡ may_be_inserted program.now op.now }
{
    match op {
        Op::Binary(o, _, _, _) => inserted_binary(*o),
        Op::Cast(o, _, _, _) => inserted_cast(*o),
        Op::Call(_, callee, _) => calls_helper(program, direct(callee)),
        _ => false,
    }
}

/// Whether an instruction names functions as callees of direct calls alone.
fn functions_called(op: &Op) -> bool
    ensures { result ≡ functions_called op.now }
{
    match op {
        Op::Call(_, callee, arguments) => {
            (direct(callee).is_some() || operand_keeps(&Free, callee))
                && each_keeps(&Free, Operands::Arguments(arguments.as_slice()))
        }
        _ => operands_keep(&Free, op),
    }
}

/// Whether a function may have its device address behind these.
fn put_address(addresses: &mut Numbers, function: &Function) -> Result<bool, NoMemory>
    ensures fits { IfOk result (λ fits. fits ≡ address_fits addresses.old function.now function.now.device_address) }
    ensures all { IfOk result (λ fits. fits ≡ true → addresses.new ≡ addresses.old ++ address_list function.now.device_address) }
{
    match function.device_address {
        None => Ok(true),
        Some(address) => {
            let new = addresses.put(address)?;
            Ok(new && !is_intrinsic(Role::Part, function))
        }
    }
}

fn function_marks(
    addresses: &mut Numbers,
    program: &Module,
    function: &Function,
) -> Result<Option<(usize, usize)>, NoMemory>
    ensures first { IfOk result (λ first. first ≡ unless (address_fits addresses.old function.now function.now.device_address) (first_instr (instr_marked program.now) function.now.blocks)) }
    ensures all { IfOk result (λ first. first ≡ None → addresses.new ≡ addresses.old ++ address_list function.now.device_address) }
{
    if !put_address(addresses, function)? {
        return Ok(Some((0, 0)));
    }
    Ok(first_instr(&Marked { program }, function.blocks.as_slice()))
}

fn functions_marked(alloc: Global, program: &Module) -> Result<Option<FaultPlace>, NoMemory>
    ensures { IfOk result (λ p. p ≡ first_place (function_marks program.now) program.now.functions) }
{
    let mut addresses = Numbers::new(alloc);
    for (k, function) in program.functions.as_slice().iter().enumerate() {
        if let Some((b, i)) = function_marks(&mut addresses, program, function)? {
            return Ok(Some(fault_place(k, b, i)?));
        }
    }
    Ok(None)
}

fn part_marks(alloc: Global, program: &Module) -> Result<Option<FaultPlace>, NoMemory>
    ensures { IfOk result (λ p. p ≡ part_marks program.now) }
{
    if !program.globals.is_empty() {
        return Ok(Some(whole()));
    }
    functions_marked(alloc, program)
}

/// Where a server's part first breaks a rule of its marks; nowhere in a source.
///
/// In a part there is no global, an inserted instruction is of a kind that the partition inserts, a function is named
/// as the callee of a direct call alone, and device addresses differ and belong to functions that have an address.
pub fn marks_fault(
    alloc: Global,
    program: &Module,
    role: Role,
) -> Result<Option<FaultPlace>, NoMemory>
    ensures { IfOk result (λ p. p ≡ marks_of program.now role) }
{
    match role {
        Role::Source => Ok(None),
        Role::Part => part_marks(alloc, program),
    }
}
