ghost use Rattle.std.specs.Prelude.{OnOk, Some, None};
ghost use Rattle.no_ir.specs.declared.instruction.Op.{Op};
ghost use Rattle.no_print.specs.Instructions.{op_pieces};
ghost use Rattle.no_print.specs.Modules.{locals_of};
ghost use Rattle.no_print.specs.Scopes.{spelled_by};
ghost use Rattle.no_print.specs.Wrote.{Wrote};

use crate::operands::{
    put_address, put_alignment, put_arguments, put_cases, put_count, put_label, put_narrow,
    put_operand, put_pairs, put_pointer, put_sized, put_steps, put_typed, put_volatile,
};
use crate::output::{GLUED, SPACED, put_comma, put_sign, put_word};
use crate::scope::Scope;
use crate::types::put_type;
use crate::words::{put_binary_word, put_cast_word, put_pred_word};
use no_ir::{BinOp, CastOp, Function, NoMemory, Op, Operand, Pred, Ty};
use sqlite_items::Items as List;

/// Appends a binary operator behind blanks.
fn put_binary(
    out: &mut Vec<u8>,
    scope: &Scope,
    f: &Function,
    gap: &[u8],
    by: BinOp,
    w: u8,
    a: &Operand,
    b: &Operand,
) -> Result<(), NoMemory>
    ensures { OnOk result (Wrote out.old.items out.new.items (op_pieces (spelled_by scope.now) (locals_of f.now) gap.now (Op.Binary by w a.now b.now))) }
{
    put_binary_word(out, gap, by)?;
    put_sized(out, scope, f, w, a)?;
    put_comma(out)?;
    put_narrow(out, scope, f, w, b)?;
    Ok(())
}

/// Appends an `icmp` behind blanks.
fn put_compare(
    out: &mut Vec<u8>,
    scope: &Scope,
    f: &Function,
    gap: &[u8],
    pred: Pred,
    t: &Ty,
    a: &Operand,
    b: &Operand,
) -> Result<(), NoMemory>
    ensures { OnOk result (Wrote out.old.items out.new.items (op_pieces (spelled_by scope.now) (locals_of f.now) gap.now (Op.Compare pred t.now a.now b.now))) }
{
    put_word(out, gap, b"icmp")?;
    put_pred_word(out, pred)?;
    put_typed(out, scope, f, SPACED, t, a)?;
    put_comma(out)?;
    put_operand(out, scope, f, t, b)?;
    Ok(())
}

/// Appends a conversion behind blanks.
fn put_cast(
    out: &mut Vec<u8>,
    scope: &Scope,
    f: &Function,
    gap: &[u8],
    cast: CastOp,
    t: &Ty,
    a: &Operand,
    to: &Ty,
) -> Result<(), NoMemory>
    ensures { OnOk result (Wrote out.old.items out.new.items (op_pieces (spelled_by scope.now) (locals_of f.now) gap.now (Op.Cast cast t.now a.now to.now))) }
{
    put_cast_word(out, gap, cast)?;
    put_typed(out, scope, f, SPACED, t, a)?;
    put_word(out, SPACED, b"to")?;
    put_type(out, scope, to, SPACED)?;
    Ok(())
}

/// Appends a `freeze` behind blanks.
fn put_freeze(
    out: &mut Vec<u8>,
    scope: &Scope,
    f: &Function,
    gap: &[u8],
    t: &Ty,
    a: &Operand,
) -> Result<(), NoMemory>
    ensures { OnOk result (Wrote out.old.items out.new.items (op_pieces (spelled_by scope.now) (locals_of f.now) gap.now (Op.Freeze t.now a.now))) }
{
    put_word(out, gap, b"freeze")?;
    put_typed(out, scope, f, SPACED, t, a)?;
    Ok(())
}

/// Appends a `select` behind blanks.
fn put_select(
    out: &mut Vec<u8>,
    scope: &Scope,
    f: &Function,
    gap: &[u8],
    c: &Operand,
    t: &Ty,
    a: &Operand,
    b: &Operand,
) -> Result<(), NoMemory>
    ensures { OnOk result (Wrote out.old.items out.new.items (op_pieces (spelled_by scope.now) (locals_of f.now) gap.now (Op.Select c.now t.now a.now b.now))) }
{
    put_word(out, gap, b"select")?;
    put_sized(out, scope, f, 1, c)?;
    put_comma(out)?;
    put_typed(out, scope, f, SPACED, t, a)?;
    put_comma(out)?;
    put_typed(out, scope, f, SPACED, t, b)?;
    Ok(())
}

/// Appends a `phi` behind blanks.
fn put_phi(
    out: &mut Vec<u8>,
    scope: &Scope,
    f: &Function,
    gap: &[u8],
    t: &Ty,
    pairs: &List<(Operand, u32)>,
) -> Result<(), NoMemory>
    ensures { OnOk result (Wrote out.old.items out.new.items (op_pieces (spelled_by scope.now) (locals_of f.now) gap.now (Op.Phi t.now pairs.now))) }
{
    put_word(out, gap, b"phi")?;
    put_type(out, scope, t, SPACED)?;
    put_pairs(out, scope, f, t, pairs.as_slice())?;
    Ok(())
}

/// Appends an `alloca` behind blanks.
fn put_alloca(
    out: &mut Vec<u8>,
    scope: &Scope,
    f: &Function,
    gap: &[u8],
    t: &Ty,
    count: &Option<(u8, Operand)>,
    align: Option<u32>,
) -> Result<(), NoMemory>
    ensures { OnOk result (Wrote out.old.items out.new.items (op_pieces (spelled_by scope.now) (locals_of f.now) gap.now (Op.Alloca t.now count.now align))) }
{
    put_word(out, gap, b"alloca")?;
    put_type(out, scope, t, SPACED)?;
    put_count(out, scope, f, count)?;
    put_alignment(out, align)?;
    Ok(())
}

/// Appends a `load` behind blanks.
fn put_load(
    out: &mut Vec<u8>,
    scope: &Scope,
    f: &Function,
    gap: &[u8],
    volatile: bool,
    t: &Ty,
    a: &Operand,
) -> Result<(), NoMemory>
    ensures { OnOk result (Wrote out.old.items out.new.items (op_pieces (spelled_by scope.now) (locals_of f.now) gap.now (Op.Load volatile t.now a.now))) }
{
    put_word(out, gap, b"load")?;
    put_volatile(out, volatile)?;
    put_type(out, scope, t, SPACED)?;
    put_comma(out)?;
    put_pointer(out, scope, f, a)?;
    Ok(())
}

/// Appends a `store` behind blanks.
fn put_store(
    out: &mut Vec<u8>,
    scope: &Scope,
    f: &Function,
    gap: &[u8],
    volatile: bool,
    t: &Ty,
    v: &Operand,
    a: &Operand,
) -> Result<(), NoMemory>
    ensures { OnOk result (Wrote out.old.items out.new.items (op_pieces (spelled_by scope.now) (locals_of f.now) gap.now (Op.Store volatile t.now v.now a.now))) }
{
    put_word(out, gap, b"store")?;
    put_volatile(out, volatile)?;
    put_typed(out, scope, f, SPACED, t, v)?;
    put_comma(out)?;
    put_pointer(out, scope, f, a)?;
    Ok(())
}

/// Appends a `getelementptr` behind blanks.
fn put_gep(
    out: &mut Vec<u8>,
    scope: &Scope,
    f: &Function,
    gap: &[u8],
    t: &Ty,
    a: &Operand,
    steps: &List<(u8, Operand)>,
) -> Result<(), NoMemory>
    ensures { OnOk result (Wrote out.old.items out.new.items (op_pieces (spelled_by scope.now) (locals_of f.now) gap.now (Op.Gep t.now a.now steps.now))) }
{
    put_word(out, gap, b"getelementptr")?;
    put_type(out, scope, t, SPACED)?;
    put_comma(out)?;
    put_pointer(out, scope, f, a)?;
    put_steps(out, scope, f, steps.as_slice())?;
    Ok(())
}

/// Appends a `call` behind blanks.
fn put_call(
    out: &mut Vec<u8>,
    scope: &Scope,
    f: &Function,
    gap: &[u8],
    t: &Ty,
    g: &Operand,
    arguments: &List<(Ty, Operand)>,
) -> Result<(), NoMemory>
    ensures { OnOk result (Wrote out.old.items out.new.items (op_pieces (spelled_by scope.now) (locals_of f.now) gap.now (Op.Call t.now g.now arguments.now))) }
{
    put_word(out, gap, b"call")?;
    put_type(out, scope, t, SPACED)?;
    put_address(out, scope, f, g)?;
    put_sign(out, GLUED, b"(")?;
    put_arguments(out, scope, f, arguments.as_slice())?;
    put_sign(out, GLUED, b")")?;
    Ok(())
}

/// Appends a `br` without a condition behind blanks.
fn put_br(
    out: &mut Vec<u8>,
    scope: &Scope,
    f: &Function,
    gap: &[u8],
    l: u32,
) -> Result<(), NoMemory>
    ensures { OnOk result (Wrote out.old.items out.new.items (op_pieces (spelled_by scope.now) (locals_of f.now) gap.now (Op.Br l))) }
{
    put_word(out, gap, b"br")?;
    put_label(out, scope, f, l)?;
    Ok(())
}

/// Appends a `br` with a condition behind blanks.
fn put_cond_br(
    out: &mut Vec<u8>,
    scope: &Scope,
    f: &Function,
    gap: &[u8],
    c: &Operand,
    l: u32,
    other: u32,
) -> Result<(), NoMemory>
    ensures { OnOk result (Wrote out.old.items out.new.items (op_pieces (spelled_by scope.now) (locals_of f.now) gap.now (Op.CondBr c.now l other))) }
{
    put_word(out, gap, b"br")?;
    put_sized(out, scope, f, 1, c)?;
    put_comma(out)?;
    put_label(out, scope, f, l)?;
    put_comma(out)?;
    put_label(out, scope, f, other)?;
    Ok(())
}

/// Appends a `switch` behind blanks.
fn put_switch(
    out: &mut Vec<u8>,
    scope: &Scope,
    f: &Function,
    gap: &[u8],
    w: u8,
    a: &Operand,
    l: u32,
    cases: &List<(u64, u32)>,
) -> Result<(), NoMemory>
    ensures { OnOk result (Wrote out.old.items out.new.items (op_pieces (spelled_by scope.now) (locals_of f.now) gap.now (Op.Switch w a.now l cases.now))) }
{
    put_word(out, gap, b"switch")?;
    put_sized(out, scope, f, w, a)?;
    put_comma(out)?;
    put_label(out, scope, f, l)?;
    put_sign(out, SPACED, b"[")?;
    put_cases(out, scope, f, w, cases.as_slice())?;
    put_sign(out, SPACED, b"]")?;
    Ok(())
}

/// Appends a `ret` without a value behind blanks.
fn put_ret_void(out: &mut Vec<u8>, scope: &Scope, f: &Function, gap: &[u8]) -> Result<(), NoMemory>
    ensures { OnOk result (Wrote out.old.items out.new.items (op_pieces (spelled_by scope.now) (locals_of f.now) gap.now (Op.Ret None))) }
{
    put_word(out, gap, b"ret")?;
    put_word(out, SPACED, b"void")?;
    Ok(())
}

/// Appends a `ret` with a value behind blanks.
fn put_ret_value(
    out: &mut Vec<u8>,
    scope: &Scope,
    f: &Function,
    gap: &[u8],
    value: &(Ty, Operand),
) -> Result<(), NoMemory>
    ensures { OnOk result (Wrote out.old.items out.new.items (op_pieces (spelled_by scope.now) (locals_of f.now) gap.now (Op.Ret (Some value.now)))) }
{
    put_word(out, gap, b"ret")?;
    put_typed(out, scope, f, SPACED, &value.0, &value.1)?;
    Ok(())
}

/// Appends an operation, whose first word stands behind these blanks.
pub(crate) fn put_op(
    out: &mut Vec<u8>,
    scope: &Scope,
    f: &Function,
    gap: &[u8],
    o: &Op,
) -> Result<(), NoMemory>
    ensures { OnOk result (Wrote out.old.items out.new.items (op_pieces (spelled_by scope.now) (locals_of f.now) gap.now o.now)) }
{
    match o {
        Op::Binary(by, w, a, b) => put_binary(out, scope, f, gap, *by, *w, a, b),
        Op::Compare(pred, t, a, b) => put_compare(out, scope, f, gap, *pred, t, a, b),
        Op::Cast(cast, t, a, to) => put_cast(out, scope, f, gap, *cast, t, a, to),
        Op::Freeze(t, a) => put_freeze(out, scope, f, gap, t, a),
        Op::Select(c, t, a, b) => put_select(out, scope, f, gap, c, t, a, b),
        Op::Phi(t, pairs) => put_phi(out, scope, f, gap, t, pairs),
        Op::Alloca(t, count, align) => put_alloca(out, scope, f, gap, t, count, *align),
        Op::Load(volatile, t, a) => put_load(out, scope, f, gap, *volatile, t, a),
        Op::Store(volatile, t, v, a) => put_store(out, scope, f, gap, *volatile, t, v, a),
        Op::Gep(t, a, steps) => put_gep(out, scope, f, gap, t, a, steps),
        Op::Call(t, g, arguments) => put_call(out, scope, f, gap, t, g, arguments),
        Op::Br(l) => put_br(out, scope, f, gap, *l),
        Op::CondBr(c, l, other) => put_cond_br(out, scope, f, gap, c, *l, *other),
        Op::Switch(w, a, l, cases) => put_switch(out, scope, f, gap, *w, a, *l, cases),
        Op::Ret(None) => put_ret_void(out, scope, f, gap),
        Op::Ret(Some(value)) => put_ret_value(out, scope, f, gap, value),
        Op::Unreachable => put_word(out, gap, b"unreachable"),
    }
}
