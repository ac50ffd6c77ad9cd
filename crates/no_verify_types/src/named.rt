ghost use Rattle.std.specs.Prelude.{◌≡◌, ◌++◌, map, IfOk, OnOk};
ghost use Rattle.std.specs.List.{concat, flat_map};
ghost use Rattle.no_module.specs.Left.{operands_left};
ghost use Rattle.no_verify_types.specs.Named.{block_names, constant_names, function_names, global_names, module_names, op_names, operand_names, symbol_names};

use no_ir::{Block, Const, Function, GlobalVar, Instr, Module, NoMemory, Operand, Symbol};
use no_module::Operands;
use std::alloc::Global;

fn add_symbol(names: &mut Vec<u32>, symbol: &Symbol) -> Result<(), NoMemory>
    ensures { OnOk result (names.new.items ≡ names.old.items ++ symbol_names symbol.now) }
{
    match symbol {
        Symbol::Function(k) => {
            names.push(*k)?;
            Ok(())
        }
        _ => Ok(()),
    }
}

#[cycle(names)]
fn add_constant(names: &mut Vec<u32>, constant: &Const) -> Result<(), NoMemory>
    ensures { OnOk result (names.new.items ≡ names.old.items ++ constant_names constant.now) }
{
    match constant {
        Const::Array(elements) => add_constants(names, elements.as_slice()),
        Const::Struct(fields) => add_constants(names, fields.as_slice()),
        Const::Address(place) => add_symbol(names, &place.symbol),
        Const::AddressAsInt(place) => add_symbol(names, &place.symbol),
        Const::Zero | Const::Int(_) | Const::Str(_) | Const::IntAsPtr(_) => Ok(()),
    }
}

#[cycle(names)]
fn add_constants(names: &mut Vec<u32>, constants: &[Const]) -> Result<(), NoMemory>
    ensures { OnOk result (names.new.items ≡ names.old.items ++ concat (map constant_names constants.now)) }
{
    for constant in constants {
        add_constant(names, constant)?;
    }
    Ok(())
}

fn add_operand(names: &mut Vec<u32>, operand: &Operand) -> Result<(), NoMemory>
    ensures { OnOk result (names.new.items ≡ names.old.items ++ operand_names operand.now) }
{
    match operand {
        Operand::Reg(_) => Ok(()),
        Operand::Const(constant) => add_constant(names, constant),
    }
}

/// Adds the functions that operands name.
#[tactic(auto, using(crate::proofs::Taking::names_taken))]
fn add_operands(names: &mut Vec<u32>, operands: Operands<'_>) -> Result<(), NoMemory>
    ensures { OnOk result (names.new.items ≡ names.old.items ++ flat_map operand_names (operands_left operands.entry)) }
{
    let mut left = operands;
    while let Some((operand, more)) = left.split_first() {
        add_operand(names, operand)?;
        left = more;
    }
    Ok(())
}

fn add_block(names: &mut Vec<u32>, instrs: &[Instr]) -> Result<(), NoMemory>
    ensures { OnOk result (names.new.items ≡ names.old.items ++ flat_map (λ (i : Instr). op_names i.op) instrs.now) }
{
    for instr in instrs {
        add_operands(names, Operands::of(&instr.op))?;
    }
    Ok(())
}

fn add_blocks(names: &mut Vec<u32>, blocks: &[Block]) -> Result<(), NoMemory>
    ensures { OnOk result (names.new.items ≡ names.old.items ++ flat_map block_names blocks.now) }
{
    for block in blocks {
        add_block(names, block.instrs.as_slice())?;
    }
    Ok(())
}

fn add_functions(names: &mut Vec<u32>, functions: &[Function]) -> Result<(), NoMemory>
    ensures { OnOk result (names.new.items ≡ names.old.items ++ flat_map function_names functions.now) }
{
    for function in functions {
        add_blocks(names, function.blocks.as_slice())?;
    }
    Ok(())
}

fn add_globals(names: &mut Vec<u32>, globals: &[GlobalVar]) -> Result<(), NoMemory>
    ensures { OnOk result (names.new.items ≡ names.old.items ++ flat_map global_names globals.now) }
{
    for global in globals {
        add_constant(names, &global.init)?;
    }
    Ok(())
}

/// The numbers of the functions that a module names anywhere, once for each time.
pub fn module_names(alloc: Global, program: &Module) -> Result<Vec<u32>, NoMemory>
    ensures { IfOk result (λ names. names.items ≡ module_names program.now) }
{
    let mut names = Vec::new(alloc);
    add_globals(&mut names, program.globals.as_slice())?;
    add_functions(&mut names, program.functions.as_slice())?;
    Ok(names)
}
