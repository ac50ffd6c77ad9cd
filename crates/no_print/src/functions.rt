#![tactic(auto, using(crate::proofs::Appending::written_append))]

ghost use Rattle.std.specs.Prelude.{◌≡◌, ◌++◌, OnOk, codes};
ghost use Rattle.std.specs.List.{list_any};
ghost use Rattle.no_ir.specs.declared.instruction.Instr.{Instr};
ghost use Rattle.no_print.specs.Commas.{break as break_pieces, gap_at as gap_at_of};
ghost use Rattle.no_print.specs.Instructions.{instr_pieces, with_result};
ghost use Rattle.no_print.specs.Modules.{address_pieces, attributes, blocks_pieces, bound_pieces, declared_pieces, defined_pieces, function_pieces, has_inserted as has_inserted_of, head_pieces, instrs_pieces, locals_of, param_pieces, type_alone};
ghost use Rattle.no_print.specs.Names.{label_line, name_at as name_at_of};
ghost use Rattle.no_print.specs.Pieces.{glued, lined, sign, spaced, with_commas};
ghost use Rattle.no_print.specs.Scopes.{spelled_by};
ghost use Rattle.no_print.specs.Wrote.{Wrote};

use crate::names::{name_at, put_global, put_label_line, put_string};
use crate::operands::{put_inserted, put_register};
use crate::operations::put_op;
use crate::output::{
    GLUED, INDENTED, LINED, PARTED, SPACED, gap_at, put_break, put_sign, put_word,
};
use crate::scope::Scope;
use crate::types::put_type;
use itoa::Buffer;
use no_ir::{Block, Function, Instr, NoMemory, Op, Ty};

/// Appends an operation and the register that it assigns.
fn put_with_result(
    out: &mut Vec<u8>,
    scope: &Scope,
    f: &Function,
    register: Option<u32>,
    o: &Op,
) -> Result<(), NoMemory>
    ensures { OnOk result (Wrote out.old.items out.new.items (with_result (spelled_by scope.now) (locals_of f.now) register o.now)) }
{
    match register {
        None => put_op(out, scope, f, INDENTED, o),
        Some(number) => {
            put_register(out, INDENTED, f, number)?;
            put_sign(out, SPACED, b"=")?;
            put_op(out, scope, f, SPACED, o)?;
            Ok(())
        }
    }
}

/// Appends an instruction.
fn put_instr(out: &mut Vec<u8>, scope: &Scope, f: &Function, i: &Instr) -> Result<(), NoMemory>
    ensures { OnOk result (Wrote out.old.items out.new.items (instr_pieces (spelled_by scope.now) (locals_of f.now) i.now)) }
{
    put_with_result(out, scope, f, i.result, &i.op)?;
    put_inserted(out, i.inserted)?;
    Ok(())
}

/// Appends the instructions of a block.
fn put_instrs(
    out: &mut Vec<u8>,
    scope: &Scope,
    f: &Function,
    instrs: &[Instr],
) -> Result<(), NoMemory>
    ensures { OnOk result (Wrote out.old.items out.new.items (instrs_pieces (spelled_by scope.now) (locals_of f.now) instrs.now)) }
{
    for i in instrs {
        put_instr(out, scope, f, i)?;
    }
    Ok(())
}

/// Appends the line of a label.
fn put_label_of(out: &mut Vec<u8>, f: &Function, l: u32) -> Result<(), NoMemory>
    ensures { OnOk result (Wrote out.old.items out.new.items (label_line lined (name_at_of f.now.labels l))) }
{
    put_label_line(out, LINED, name_at(f.labels.as_slice(), l))
}

/// Appends a block.
fn put_block(out: &mut Vec<u8>, scope: &Scope, f: &Function, b: &Block) -> Result<(), NoMemory>
    ensures { OnOk result (Wrote out.old.items out.new.items (label_line lined (name_at_of f.now.labels b.now.label) ++ instrs_pieces (spelled_by scope.now) (locals_of f.now) b.now.instrs)) }
{
    put_label_of(out, f, b.label)?;
    put_instrs(out, scope, f, b.instrs.as_slice())?;
    Ok(())
}

/// Appends the blocks of a function.
fn put_blocks(
    out: &mut Vec<u8>,
    scope: &Scope,
    f: &Function,
    blocks: &[Block],
) -> Result<(), NoMemory>
    ensures { OnOk result (Wrote out.old.items out.new.items (blocks_pieces (spelled_by scope.now) (locals_of f.now) blocks.now)) }
{
    for b in blocks {
        put_block(out, scope, f, b)?;
    }
    Ok(())
}

/// Appends the attribute of a function that is pinned to the device.
fn put_bound(out: &mut Vec<u8>, bound: bool) -> Result<(), NoMemory>
    ensures { OnOk result (Wrote out.old.items out.new.items (bound_pieces bound)) }
{
    if bound {
        put_string(out, SPACED, b"machine-bound")
    } else {
        Ok(())
    }
}

/// Appends the address that the device has for a function.
fn put_device_address(out: &mut Vec<u8>, address: Option<u32>) -> Result<(), NoMemory>
    ensures { OnOk result (Wrote out.old.items out.new.items (address_pieces address)) }
{
    match address {
        None => Ok(()),
        Some(n) => {
            let mut buffer = Buffer::new();
            put_string(out, SPACED, b"no.addr")?;
            put_sign(out, GLUED, b"=")?;
            put_string(out, GLUED, buffer.format(n).as_bytes())?;
            Ok(())
        }
    }
}

/// Appends the attributes of a function.
fn put_attributes(out: &mut Vec<u8>, f: &Function) -> Result<(), NoMemory>
    ensures { OnOk result (Wrote out.old.items out.new.items (attributes f.now)) }
{
    put_bound(out, f.bound)?;
    put_device_address(out, f.device_address)?;
    Ok(())
}

/// Appends what stands before a function's parameters.
fn put_head(out: &mut Vec<u8>, scope: &Scope, first: &[u8], f: &Function) -> Result<(), NoMemory>
    ensures { OnOk result (Wrote out.old.items out.new.items (head_pieces (spelled_by scope.now) first.now f.now)) }
{
    put_word(out, PARTED, first)?;
    put_type(out, scope, &f.result, SPACED)?;
    put_global(out, SPACED, f.name.as_slice())?;
    Ok(())
}

/// Appends the type of the declared parameter of this number.
fn put_declared_param(
    out: &mut Vec<u8>,
    scope: &Scope,
    k: usize,
    param: &(u32, Ty),
) -> Result<(), NoMemory>
    ensures { OnOk result (Wrote out.old.items out.new.items (break_pieces k ++ type_alone (spelled_by scope.now) (gap_at_of glued k) param.now)) }
{
    put_break(out, k)?;
    put_type(out, scope, &param.1, gap_at(GLUED, k))?;
    Ok(())
}

/// Appends the types of declared parameters with commas.
fn put_declared_params(
    out: &mut Vec<u8>,
    scope: &Scope,
    params: &[(u32, Ty)],
) -> Result<(), NoMemory>
    ensures { OnOk result (Wrote out.old.items out.new.items (with_commas (type_alone (spelled_by scope.now)) glued params.now)) }
{
    for (k, param) in params.iter().enumerate() {
        put_declared_param(out, scope, k, param)?;
    }
    Ok(())
}

/// Appends a function that is declared.
fn put_declared(out: &mut Vec<u8>, scope: &Scope, f: &Function) -> Result<(), NoMemory>
    ensures { OnOk result (Wrote out.old.items out.new.items (declared_pieces (spelled_by scope.now) f.now)) }
{
    put_head(out, scope, b"declare", f)?;
    put_sign(out, GLUED, b"(")?;
    put_declared_params(out, scope, f.params.as_slice())?;
    put_sign(out, GLUED, b")")?;
    put_attributes(out, f)?;
    Ok(())
}

/// Appends a parameter behind blanks.
fn put_one_param(
    out: &mut Vec<u8>,
    scope: &Scope,
    f: &Function,
    gap: &[u8],
    param: &(u32, Ty),
) -> Result<(), NoMemory>
    ensures { OnOk result (Wrote out.old.items out.new.items (param_pieces (spelled_by scope.now) f.now.registers gap.now param.now)) }
{
    put_type(out, scope, &param.1, gap)?;
    put_register(out, SPACED, f, param.0)?;
    Ok(())
}

/// Appends the parameter of this number.
fn put_param(
    out: &mut Vec<u8>,
    scope: &Scope,
    f: &Function,
    k: usize,
    param: &(u32, Ty),
) -> Result<(), NoMemory>
    ensures { OnOk result (Wrote out.old.items out.new.items (break_pieces k ++ param_pieces (spelled_by scope.now) f.now.registers (gap_at_of glued k) param.now)) }
{
    put_break(out, k)?;
    put_one_param(out, scope, f, gap_at(GLUED, k), param)?;
    Ok(())
}

/// Appends parameters with commas.
fn put_params(
    out: &mut Vec<u8>,
    scope: &Scope,
    f: &Function,
    params: &[(u32, Ty)],
) -> Result<(), NoMemory>
    ensures { OnOk result (Wrote out.old.items out.new.items (with_commas (param_pieces (spelled_by scope.now) f.now.registers) glued params.now)) }
{
    for (k, param) in params.iter().enumerate() {
        put_param(out, scope, f, k, param)?;
    }
    Ok(())
}

/// Appends attributes and blocks of a function that is defined.
fn put_body(out: &mut Vec<u8>, scope: &Scope, f: &Function) -> Result<(), NoMemory>
    ensures { OnOk result (Wrote out.old.items out.new.items (attributes f.now ++ (sign spaced (codes "{") ++ (blocks_pieces (spelled_by scope.now) (locals_of f.now) f.now.blocks ++ sign lined (codes "}"))))) }
{
    put_attributes(out, f)?;
    put_sign(out, SPACED, b"{")?;
    put_blocks(out, scope, f, f.blocks.as_slice())?;
    put_sign(out, LINED, b"}")?;
    Ok(())
}

/// Appends a function that is defined.
fn put_defined(out: &mut Vec<u8>, scope: &Scope, f: &Function) -> Result<(), NoMemory>
    ensures { OnOk result (Wrote out.old.items out.new.items (defined_pieces (spelled_by scope.now) f.now)) }
{
    put_head(out, scope, b"define", f)?;
    put_sign(out, GLUED, b"(")?;
    put_params(out, scope, f, f.params.as_slice())?;
    put_sign(out, GLUED, b")")?;
    put_body(out, scope, f)?;
    Ok(())
}

/// Appends a function.
pub(crate) fn put_function(out: &mut Vec<u8>, scope: &Scope, f: &Function) -> Result<(), NoMemory>
    ensures { OnOk result (Wrote out.old.items out.new.items (function_pieces (spelled_by scope.now) f.now)) }
{
    match f.blocks.as_slice() {
        [] => put_declared(out, scope, f),
        [_, ..] => put_defined(out, scope, f),
    }
}

/// Whether a block has an inserted instruction.
fn block_has_inserted(b: &Block) -> bool
    ensures { result ≡ list_any (λ (i : Instr). i.inserted) b.now.instrs }
{
    for i in b.instrs.as_slice() {
        if i.inserted {
            return true;
        }
    }
    false
}

/// Whether a function has an inserted instruction.
pub(crate) fn has_inserted(f: &Function) -> bool
    ensures { result ≡ has_inserted_of f.now }
{
    for b in f.blocks.as_slice() {
        if block_has_inserted(b) {
            return true;
        }
    }
    false
}
