ghost use Rattle.std.specs.Prelude.{◌≡◌, ◌||◌, ℕ, IfOk, OnOk, map};
ghost use Rattle.std.specs.List.{flat_map, list_all};
ghost use Rattle.no_verify_structure.specs.Finding.{first_place};
ghost use Rattle.no_verify_structure.specs.Names.{block_registers, instr_registers, is_in, labels_defined, registers_of};
ghost use Rattle.no_verify_structure.specs.Unknown.{function_unknown, global_known, instr_known, place_known, symbol_known, unknown_of};

use crate::finding::{InstrRule, fault_place, first_instr, whole};
use crate::numbers::Numbers;
use crate::parts::{NameRule, constant_keeps, operands_keep};
use no_ir::{Block, Function, GlobalVar, Instr, Module, NoMemory, Place, Symbol, Ty};
use no_module::Labels;
use no_verify_types::FaultPlace;
use std::alloc::Global;

/// The names that an instruction of a function may use.
#[derive(Clone, Copy)]
struct Known<'a> {
    program: &'a Module,
    registers: &'a Numbers,
    labels: &'a Numbers,
}

impl<'a> NameRule for Known<'a> {
    ghost use Rattle.std.specs.Prelude.{true};
    ghost use Rattle.no_verify_structure.specs.Names.{is_in};
    ghost use Rattle.no_verify_structure.specs.Unknown.{place_known};

    ghost ready = { λ s. true };

    ghost registers = { λ s. is_in s.registers.now };

    ghost places = { λ s. place_known s.program.now };

    fn keeps_register(&self, register: u32) -> bool {
        self.registers.has(register)
    }

    fn keeps_place(&self, place: &Place) -> bool {
        has_symbol(self.program, &place.symbol)
    }
}

impl<'a> InstrRule for Known<'a> {
    ghost use Rattle.std.specs.Prelude.{true};
    ghost use Rattle.no_verify_structure.specs.Unknown.{instr_known};

    ghost ready = { λ s. true };

    ghost keeps = { λ s. instr_known s.program.now s.registers.now s.labels.now };

    fn keeps(&self, instr: &Instr) -> bool {
        operands_keep(self, &instr.op) && self.labels.has_each(Labels::of(&instr.op))
    }
}

/// Whether a module has a symbol.
fn has_symbol(program: &Module, symbol: &Symbol) -> bool
    ensures { result ≡ symbol_known program.now symbol.now }
{
    match symbol {
        Symbol::Global(k) => (*k as usize) < program.globals.len(),
        Symbol::Function(k) => (*k as usize) < program.functions.len(),
        Symbol::Unknown(_) => false,
    }
}

/// Puts in the registers that instructions assign.
fn put_results(registers: &mut Numbers, instrs: &[Instr]) -> Result<(), NoMemory>
    ensures { OnOk result ((r : ℕ) → is_in registers.new r ≡ (is_in registers.old r || is_in (flat_map instr_registers instrs.now) r)) }
{
    for instr in instrs {
        if let Some(r) = instr.result {
            let _new = registers.put(r)?;
        }
    }
    Ok(())
}

fn put_blocks(registers: &mut Numbers, blocks: &[Block]) -> Result<(), NoMemory>
    ensures { OnOk result ((r : ℕ) → is_in registers.new r ≡ (is_in registers.old r || is_in (flat_map block_registers blocks.now) r)) }
{
    for block in blocks {
        put_results(registers, block.instrs.as_slice())?;
    }
    Ok(())
}

fn put_parameters(registers: &mut Numbers, parameters: &[(u32, Ty)]) -> Result<(), NoMemory>
    ensures { OnOk result ((r : ℕ) → is_in registers.new r ≡ (is_in registers.old r || is_in (map (λ p. p.0) parameters.now) r)) }
{
    for parameter in parameters {
        let _new = registers.put(parameter.0)?;
    }
    Ok(())
}

/// The registers that a function defines.
fn registers(alloc: Global, function: &Function) -> Result<Numbers, NoMemory>
    ensures { IfOk result (λ all. (r : ℕ) → is_in all r ≡ is_in (registers_of function.now) r) }
{
    let mut all = Numbers::new(alloc);
    put_parameters(&mut all, function.params.as_slice())?;
    put_blocks(&mut all, function.blocks.as_slice())?;
    Ok(all)
}

/// The labels that a function defines.
fn labels(alloc: Global, function: &Function) -> Result<Numbers, NoMemory>
    ensures { IfOk result (λ all. (l : ℕ) → is_in all l ≡ is_in (labels_defined function.now) l) }
{
    let mut all = Numbers::new(alloc);
    for block in function.blocks.as_slice() {
        let _new = all.put(block.label)?;
    }
    Ok(all)
}

#[tactic(auto, using(crate::proofs::Members::same_unknown))]
fn function_unknown(
    alloc: Global,
    program: &Module,
    function: &Function,
) -> Result<Option<(usize, usize)>, NoMemory>
    ensures { IfOk result (λ p. p ≡ function_unknown program.now function.now) }
{
    let registers = registers(alloc, function)?;
    let labels = labels(alloc, function)?;
    let known = Known {
        program,
        registers: &registers,
        labels: &labels,
    };
    Ok(first_instr(&known, function.blocks.as_slice()))
}

/// Whether the first values of globals name symbols of the module alone.
fn globals_known(program: &Module, none: &Numbers) -> bool
    ensures { result ≡ list_all (global_known program.now) program.now.globals }
{
    let known = Known {
        program,
        registers: none,
        labels: none,
    };
    for global in program.globals.as_slice() {
        if !constant_keeps(&known, &global.init) {
            return false;
        }
    }
    true
}

/// Where a module first uses a symbol, a register or a label that has no definition.
pub fn unknown_fault(alloc: Global, program: &Module) -> Result<Option<FaultPlace>, NoMemory>
    ensures { IfOk result (λ p. p ≡ unknown_of program.now) }
{
    if !globals_known(program, &Numbers::new(alloc)) {
        return Ok(Some(whole()));
    }
    functions_unknown(alloc, program)
}

fn functions_unknown(alloc: Global, program: &Module) -> Result<Option<FaultPlace>, NoMemory>
    ensures { IfOk result (λ p. p ≡ first_place (λ k. function_unknown program.now) program.now.functions) }
{
    for (k, function) in program.functions.as_slice().iter().enumerate() {
        if let Some((b, i)) = function_unknown(alloc, program, function)? {
            return Ok(Some(fault_place(k, b, i)?));
        }
    }
    Ok(None)
}
