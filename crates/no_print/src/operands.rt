#![tactic(auto, using(crate::proofs::Appending::written_append))]

ghost use Rattle.std.specs.Prelude.{◌++◌, OnOk, ℕ};
ghost use Rattle.no_ir.specs.declared.instruction.Operand.{Operand};
ghost use Rattle.no_ir.specs.declared.types.Ty.{Ty};
ghost use Rattle.no_print.specs.Commas.{break as break_pieces, gap_at as gap_at_of};
ghost use Rattle.no_print.specs.Instructions.{alignment_pieces, argument_pieces, case_pieces, count_pieces, inserted_pieces, label, operand_pieces, pair_pieces, pointer, sized, typed, volatile_word};
ghost use Rattle.no_print.specs.Modules.{locals_of};
ghost use Rattle.no_print.specs.Names.{int_type, local_name, name_at as name_at_of, number};
ghost use Rattle.no_print.specs.Pieces.{behind_commas, comma, glued, sign, spaced, with_commas};
ghost use Rattle.no_print.specs.Scopes.{spelled_by};
ghost use Rattle.no_print.specs.Wrote.{Wrote};

use crate::constants::put_const;
use crate::names::{name_at, put_int_type, put_local};
use crate::numbers::put_number;
use crate::output::{
    GLUED, SPACED, gap_at, put_break, put_comma, put_decimal, put_sign, put_token, put_word,
};
use crate::scope::Scope;
use crate::types::put_type;
use no_ir::{Function, NoMemory, Operand, Ty};

/// Appends the word of a volatile access.
pub(crate) fn put_volatile(out: &mut Vec<u8>, volatile: bool) -> Result<(), NoMemory>
    ensures { OnOk result (Wrote out.old.items out.new.items (volatile_word volatile)) }
{
    if volatile {
        put_word(out, SPACED, b"volatile")
    } else {
        Ok(())
    }
}

/// Appends a stated alignment.
pub(crate) fn put_alignment(out: &mut Vec<u8>, align: Option<u32>) -> Result<(), NoMemory>
    ensures { OnOk result (Wrote out.old.items out.new.items (alignment_pieces align)) }
{
    match align {
        None => Ok(()),
        Some(n) => {
            put_comma(out)?;
            put_word(out, SPACED, b"align")?;
            put_decimal(out, SPACED, n as u64)?;
            Ok(())
        }
    }
}

/// Appends the mark of an instruction that the partition made.
pub(crate) fn put_inserted(out: &mut Vec<u8>, inserted: bool) -> Result<(), NoMemory>
    ensures { OnOk result (Wrote out.old.items out.new.items (inserted_pieces inserted)) }
{
    if !inserted {
        return Ok(());
    }
    put_comma(out)?;
    put_token(out, SPACED, b"!no.x")?;
    put_token(out, SPACED, b"!0")?;
    Ok(())
}

/// Appends the name of a register behind blanks.
pub(crate) fn put_register(
    out: &mut Vec<u8>,
    gap: &[u8],
    f: &Function,
    register: u32,
) -> Result<(), NoMemory>
    ensures { OnOk result (Wrote out.old.items out.new.items (local_name gap.now (name_at_of f.now.registers register))) }
{
    put_local(out, gap, name_at(f.registers.as_slice(), register))
}

/// Appends an operand at its type.
pub(crate) fn put_operand(
    out: &mut Vec<u8>,
    scope: &Scope,
    f: &Function,
    t: &Ty,
    o: &Operand,
) -> Result<(), NoMemory>
    ensures { OnOk result (Wrote out.old.items out.new.items (operand_pieces (spelled_by scope.now) (locals_of f.now) t.now o.now)) }
{
    match o {
        Operand::Reg(register) => put_register(out, SPACED, f, *register),
        Operand::Const(constant) => put_const(out, scope, constant, t, SPACED),
    }
}

/// Appends a type, and an operand at it, behind blanks.
pub(crate) fn put_typed(
    out: &mut Vec<u8>,
    scope: &Scope,
    f: &Function,
    gap: &[u8],
    t: &Ty,
    o: &Operand,
) -> Result<(), NoMemory>
    ensures { OnOk result (Wrote out.old.items out.new.items (typed (spelled_by scope.now) (locals_of f.now) gap.now t.now o.now)) }
{
    put_type(out, scope, t, gap)?;
    put_operand(out, scope, f, t, o)?;
    Ok(())
}

/// Appends an operand of an integer type.
pub(crate) fn put_narrow(
    out: &mut Vec<u8>,
    scope: &Scope,
    f: &Function,
    w: u8,
    o: &Operand,
) -> Result<(), NoMemory>
    ensures { OnOk result (Wrote out.old.items out.new.items (operand_pieces (spelled_by scope.now) (locals_of f.now) (Ty.Int w) o.now)) }
{
    let t = Ty::Int(w);
    put_operand(out, scope, f, &t, o)
}

/// Appends an integer type, and an operand at it.
pub(crate) fn put_sized(
    out: &mut Vec<u8>,
    scope: &Scope,
    f: &Function,
    w: u8,
    o: &Operand,
) -> Result<(), NoMemory>
    ensures { OnOk result (Wrote out.old.items out.new.items (sized (spelled_by scope.now) (locals_of f.now) w o.now)) }
{
    put_int_type(out, SPACED, w)?;
    put_narrow(out, scope, f, w, o)?;
    Ok(())
}

/// Appends an operand that is an address.
pub(crate) fn put_address(
    out: &mut Vec<u8>,
    scope: &Scope,
    f: &Function,
    o: &Operand,
) -> Result<(), NoMemory>
    ensures { OnOk result (Wrote out.old.items out.new.items (operand_pieces (spelled_by scope.now) (locals_of f.now) Ty.Ptr o.now)) }
{
    let t = Ty::Ptr;
    put_operand(out, scope, f, &t, o)
}

/// Appends the pointer type, and an operand at it.
pub(crate) fn put_pointer(
    out: &mut Vec<u8>,
    scope: &Scope,
    f: &Function,
    o: &Operand,
) -> Result<(), NoMemory>
    ensures { OnOk result (Wrote out.old.items out.new.items (pointer (spelled_by scope.now) (locals_of f.now) o.now)) }
{
    put_word(out, SPACED, b"ptr")?;
    put_address(out, scope, f, o)?;
    Ok(())
}

/// Appends the name of a label.
fn put_target(out: &mut Vec<u8>, f: &Function, l: u32) -> Result<(), NoMemory>
    ensures { OnOk result (Wrote out.old.items out.new.items (local_name spaced (name_at_of f.now.labels l))) }
{
    put_local(out, SPACED, name_at(f.labels.as_slice(), l))
}

/// Appends a label as an operand.
pub(crate) fn put_label(
    out: &mut Vec<u8>,
    scope: &Scope,
    f: &Function,
    l: u32,
) -> Result<(), NoMemory>
    ensures { OnOk result (Wrote out.old.items out.new.items (label (spelled_by scope.now) (locals_of f.now) l)) }
{
    put_word(out, SPACED, b"label")?;
    put_target(out, f, l)?;
    Ok(())
}

/// Appends a stated count.
pub(crate) fn put_count(
    out: &mut Vec<u8>,
    scope: &Scope,
    f: &Function,
    count: &Option<(u8, Operand)>,
) -> Result<(), NoMemory>
    ensures { OnOk result (Wrote out.old.items out.new.items (count_pieces (spelled_by scope.now) (locals_of f.now) count.now)) }
{
    match count {
        None => Ok(()),
        Some(stated) => {
            put_comma(out)?;
            put_sized(out, scope, f, stated.0, &stated.1)?;
            Ok(())
        }
    }
}

/// Appends what a phi takes from a block, behind blanks.
fn put_pair(
    out: &mut Vec<u8>,
    scope: &Scope,
    f: &Function,
    t: &Ty,
    gap: &[u8],
    pair: &(Operand, u32),
) -> Result<(), NoMemory>
    ensures { OnOk result (Wrote out.old.items out.new.items (pair_pieces (spelled_by scope.now) (locals_of f.now) t.now gap.now pair.now)) }
{
    put_sign(out, gap, b"[")?;
    put_operand(out, scope, f, t, &pair.0)?;
    put_comma(out)?;
    put_target(out, f, pair.1)?;
    put_sign(out, SPACED, b"]")?;
    Ok(())
}

/// Appends the pair of this number.
fn put_pair_at(
    out: &mut Vec<u8>,
    scope: &Scope,
    f: &Function,
    t: &Ty,
    k: usize,
    pair: &(Operand, u32),
) -> Result<(), NoMemory>
    ensures { OnOk result (Wrote out.old.items out.new.items (break_pieces k ++ pair_pieces (spelled_by scope.now) (locals_of f.now) t.now (gap_at_of spaced k) pair.now)) }
{
    put_break(out, k)?;
    put_pair(out, scope, f, t, gap_at(SPACED, k), pair)?;
    Ok(())
}

/// Appends what a phi takes from each block.
pub(crate) fn put_pairs(
    out: &mut Vec<u8>,
    scope: &Scope,
    f: &Function,
    t: &Ty,
    pairs: &[(Operand, u32)],
) -> Result<(), NoMemory>
    ensures { OnOk result (Wrote out.old.items out.new.items (with_commas (pair_pieces (spelled_by scope.now) (locals_of f.now) t.now) spaced pairs.now)) }
{
    for (k, pair) in pairs.iter().enumerate() {
        put_pair_at(out, scope, f, t, k, pair)?;
    }
    Ok(())
}

/// Appends the argument of this number.
fn put_argument(
    out: &mut Vec<u8>,
    scope: &Scope,
    f: &Function,
    k: usize,
    argument: &(Ty, Operand),
) -> Result<(), NoMemory>
    ensures { OnOk result (Wrote out.old.items out.new.items (break_pieces k ++ argument_pieces (spelled_by scope.now) (locals_of f.now) (gap_at_of glued k) argument.now)) }
{
    put_break(out, k)?;
    put_typed(out, scope, f, gap_at(GLUED, k), &argument.0, &argument.1)?;
    Ok(())
}

/// Appends arguments with commas.
pub(crate) fn put_arguments(
    out: &mut Vec<u8>,
    scope: &Scope,
    f: &Function,
    arguments: &[(Ty, Operand)],
) -> Result<(), NoMemory>
    ensures { OnOk result (Wrote out.old.items out.new.items (with_commas (argument_pieces (spelled_by scope.now) (locals_of f.now)) glued arguments.now)) }
{
    for (k, argument) in arguments.iter().enumerate() {
        put_argument(out, scope, f, k, argument)?;
    }
    Ok(())
}

/// Appends an index behind a comma.
fn put_step(
    out: &mut Vec<u8>,
    scope: &Scope,
    f: &Function,
    step: &(u8, Operand),
) -> Result<(), NoMemory>
    ensures { OnOk result (Wrote out.old.items out.new.items (comma ++ sized (spelled_by scope.now) (locals_of f.now) step.now.0 step.now.1)) }
{
    put_comma(out)?;
    put_sized(out, scope, f, step.0, &step.1)?;
    Ok(())
}

/// Appends indices, each behind a comma.
pub(crate) fn put_steps(
    out: &mut Vec<u8>,
    scope: &Scope,
    f: &Function,
    steps: &[(u8, Operand)],
) -> Result<(), NoMemory>
    ensures { OnOk result (Wrote out.old.items out.new.items (behind_commas (λ (i : ℕ × Operand). sized (spelled_by scope.now) (locals_of f.now) i.0 i.1) steps.now)) }
{
    for step in steps {
        put_step(out, scope, f, step)?;
    }
    Ok(())
}

/// Appends a case of a `switch`.
fn put_case(
    out: &mut Vec<u8>,
    scope: &Scope,
    f: &Function,
    w: u8,
    case: &(u64, u32),
) -> Result<(), NoMemory>
    ensures { OnOk result (Wrote out.old.items out.new.items (int_type spaced w ++ (number w spaced case.now.0 ++ (comma ++ label (spelled_by scope.now) (locals_of f.now) case.now.1)))) }
{
    put_int_type(out, SPACED, w)?;
    put_number(out, w, SPACED, case.0)?;
    put_comma(out)?;
    put_label(out, scope, f, case.1)?;
    Ok(())
}

/// Appends the cases of a `switch`.
pub(crate) fn put_cases(
    out: &mut Vec<u8>,
    scope: &Scope,
    f: &Function,
    w: u8,
    cases: &[(u64, u32)],
) -> Result<(), NoMemory>
    ensures { OnOk result (Wrote out.old.items out.new.items (case_pieces (spelled_by scope.now) (locals_of f.now) w cases.now)) }
{
    for case in cases {
        put_case(out, scope, f, w, case)?;
    }
    Ok(())
}
