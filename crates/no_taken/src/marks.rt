ghost use Rattle.std.specs.Prelude.{◌≡◌, ◌++◌, false, replicate, slice_set, true, IfOk, map};
ghost use Rattle.std.specs.List.{concat, flat_map};
ghost use Rattle.no_module.specs.Instructions.{argument_operands};
ghost use Rattle.no_module.specs.Left.{operands_left};
ghost use Rattle.no_semantics.specs.Taken.{block_taken, callee_taken, function_taken, op_taken};
ghost use Rattle.no_verify_types.specs.Named.{constant_names, global_names, operand_names, symbol_names};
ghost use Rattle.no_taken.specs.Marked.{AreTaken, marked};

use no_ir::{
    Block, Const, Function, GlobalVar, Instr, List, Module, NoMemory, Op, Operand, Symbol, Ty,
};
use no_module::Operands;
use no_verify_types::direct;
use std::alloc::Global;

/// Sets the flag of a number, if there is one.
fn mark(flags: &mut List<bool>, k: u32)
    ensures { flags.new ≡ slice_set flags.old k true }
{
    if (k as usize) < flags.len() {
        flags.set(k as usize, true);
    }
}

fn mark_symbol(flags: &mut List<bool>, symbol: &Symbol)
    ensures { flags.new ≡ marked (symbol_names symbol.now) flags.old }
{
    if let Symbol::Function(k) = symbol {
        mark(flags, *k);
    }
}

#[cycle(taken)]
fn mark_constant(flags: &mut List<bool>, constant: &Const)
    ensures { flags.new ≡ marked (constant_names constant.now) flags.old }
{
    match constant {
        Const::Array(elements) => mark_constants(flags, elements.as_slice()),
        Const::Struct(fields) => mark_constants(flags, fields.as_slice()),
        Const::Address(place) => mark_symbol(flags, &place.symbol),
        Const::AddressAsInt(place) => mark_symbol(flags, &place.symbol),
        Const::Zero | Const::Int(_) | Const::Str(_) | Const::IntAsPtr(_) => {}
    }
}

#[cycle(taken)]
fn mark_constants(flags: &mut List<bool>, constants: &[Const])
    ensures { flags.new ≡ marked (concat (map constant_names constants.now)) flags.old }
{
    for constant in constants {
        mark_constant(flags, constant);
    }
}

fn mark_operand(flags: &mut List<bool>, operand: &Operand)
    ensures { flags.new ≡ marked (operand_names operand.now) flags.old }
{
    match operand {
        Operand::Reg(_) => {}
        Operand::Const(constant) => mark_constant(flags, constant),
    }
}

/// Sets the flags of the functions that operands name.
fn mark_operands(flags: &mut List<bool>, operands: Operands<'_>)
    ensures { flags.new ≡ marked (flat_map operand_names (operands_left operands.entry)) flags.old }
{
    let mut left = operands;
    while let Some((operand, more)) = left.split_first() {
        mark_operand(flags, operand);
        left = more;
    }
}

/// A bare name that is called directly is not taken.
fn mark_callee(flags: &mut List<bool>, callee: &Operand)
    ensures { flags.new ≡ marked (callee_taken callee.now) flags.old }
{
    if direct(callee).is_none() {
        mark_operand(flags, callee);
    }
}

#[tactic(auto, using(crate::proofs::Flags::marked_append))]
fn mark_call(flags: &mut List<bool>, callee: &Operand, args: &[(Ty, Operand)])
    ensures { flags.new ≡ marked (callee_taken callee.now ++ flat_map operand_names (argument_operands args.now)) flags.old }
{
    mark_callee(flags, callee);
    mark_operands(flags, Operands::Arguments(args));
}

fn mark_op(flags: &mut List<bool>, op: &Op)
    ensures { flags.new ≡ marked (op_taken op.now) flags.old }
{
    match op {
        Op::Call(_, callee, args) => mark_call(flags, callee, args.as_slice()),
        _ => mark_operands(flags, Operands::of(op)),
    }
}

fn mark_block(flags: &mut List<bool>, instrs: &[Instr])
    ensures { flags.new ≡ marked (flat_map (λ (i : Instr). op_taken i.op) instrs.now) flags.old }
{
    for instr in instrs {
        mark_op(flags, &instr.op);
    }
}

fn mark_blocks(flags: &mut List<bool>, blocks: &[Block])
    ensures { flags.new ≡ marked (flat_map block_taken blocks.now) flags.old }
{
    for block in blocks {
        mark_block(flags, block.instrs.as_slice());
    }
}

fn mark_functions(flags: &mut List<bool>, functions: &[Function])
    ensures { flags.new ≡ marked (flat_map function_taken functions.now) flags.old }
{
    for function in functions {
        mark_blocks(flags, function.blocks.as_slice());
    }
}

fn mark_globals(flags: &mut List<bool>, globals: &[GlobalVar])
    ensures { flags.new ≡ marked (flat_map global_names globals.now) flags.old }
{
    for global in globals {
        mark_constant(flags, &global.init);
    }
}

/// As many flags that are not set.
fn unset(alloc: Global, count: usize) -> Result<List<bool>, NoMemory>
    ensures { IfOk result (λ flags. flags ≡ replicate count false) }
{
    let mut flags = List::new(alloc);
    for _ in 0..count {
        flags.push(false)?;
    }
    Ok(flags)
}

/// For each function of a module, whether its address is taken.
pub fn taken(alloc: Global, program: &Module) -> Result<List<bool>, NoMemory>
    ensures { IfOk result (λ flags. AreTaken program.now flags) }
{
    let mut flags = unset(alloc, program.functions.len())?;
    mark_globals(&mut flags, program.globals.as_slice());
    mark_functions(&mut flags, program.functions.as_slice());
    Ok(flags)
}
