#![tactic(auto, using(crate::proofs::Appending::written_append))]

ghost use Rattle.std.specs.Prelude.{◌≡◌, ◌++◌, [], OnOk, map, true};
ghost use Rattle.no_print.specs.Constants.{type_at};
ghost use Rattle.no_print.specs.Commas.{break as break_pieces, gap_at};
ghost use Rattle.no_print.specs.Pieces.{spaced};
ghost use Rattle.no_print.specs.Scopes.{spelled_by};
ghost use Rattle.no_print.specs.Types.{array_pieces, fields_with, in_braces, struct_pieces, type_pieces};
ghost use Rattle.no_print.specs.Wrote.{Wrote};

use crate::names::{put_int_type, put_local};
use crate::output::{GLUED, SPACED, put_break, put_decimal, put_sign, put_word};
use crate::scope::{Scope, type_name};
use no_ir::{NoMemory, Ty};

/// Appends braces with nothing between them.
pub(crate) fn put_no_braces(out: &mut Vec<u8>, gap: &[u8]) -> Result<(), NoMemory>
    ensures { OnOk result (Wrote out.old.items out.new.items (in_braces gap.now [])) }
{
    put_sign(out, gap, b"{")?;
    put_sign(out, GLUED, b"}")?;
    Ok(())
}

/// Appends an array type behind blanks.
#[cycle(types)]
fn put_array(
    out: &mut Vec<u8>,
    scope: &Scope,
    count: u64,
    element: &Ty,
    gap: &[u8],
) -> Result<(), NoMemory>
    ensures { OnOk result (Wrote out.old.items out.new.items (array_pieces gap.now count (type_pieces (spelled_by scope.now).named element.now))) }
{
    put_sign(out, gap, b"[")?;
    put_decimal(out, GLUED, count)?;
    put_word(out, SPACED, b"x")?;
    put_type(out, scope, element, SPACED)?;
    put_sign(out, GLUED, b"]")?;
    Ok(())
}

/// Appends the type of the field of this number.
#[cycle(types)]
fn put_field(out: &mut Vec<u8>, scope: &Scope, k: usize, field: &Ty) -> Result<(), NoMemory>
    ensures { OnOk result (Wrote out.old.items out.new.items (break_pieces k ++ type_at (spelled_by scope.now) (gap_at spaced k) field.now)) }
{
    put_break(out, k)?;
    put_type(out, scope, field, SPACED)?;
    Ok(())
}

/// Appends field types with commas.
#[cycle(types)]
fn put_all_fields(out: &mut Vec<u8>, scope: &Scope, fields: &[Ty]) -> Result<(), NoMemory>
    ensures { OnOk result (Wrote out.old.items out.new.items (fields_with (map (type_pieces (spelled_by scope.now).named) fields.now))) }
{
    for (k, field) in fields.iter().enumerate() {
        put_field(out, scope, k, field)?;
    }
    Ok(())
}

/// Appends field types in braces behind blanks.
#[cycle(types)]
fn put_fields(out: &mut Vec<u8>, scope: &Scope, fields: &[Ty], gap: &[u8]) -> Result<(), NoMemory>
    ensures { OnOk result (Wrote out.old.items out.new.items (in_braces gap.now (fields_with (map (type_pieces (spelled_by scope.now).named) fields.now)))) }
{
    if fields.len() == 0 {
        return put_no_braces(out, gap);
    }
    put_sign(out, gap, b"{")?;
    put_all_fields(out, scope, fields)?;
    put_sign(out, SPACED, b"}")?;
    Ok(())
}

/// Appends a packed struct type behind blanks.
#[cycle(types)]
fn put_packed(out: &mut Vec<u8>, scope: &Scope, fields: &[Ty], gap: &[u8]) -> Result<(), NoMemory>
    ensures { OnOk result (Wrote out.old.items out.new.items (struct_pieces true gap.now (fields_with (map (type_pieces (spelled_by scope.now).named) fields.now)))) }
{
    put_sign(out, gap, b"<")?;
    put_fields(out, scope, fields, GLUED)?;
    put_sign(out, GLUED, b">")?;
    Ok(())
}

/// Appends a struct type behind blanks.
#[cycle(types)]
fn put_struct(
    out: &mut Vec<u8>,
    scope: &Scope,
    packed: bool,
    fields: &[Ty],
    gap: &[u8],
) -> Result<(), NoMemory>
    ensures { OnOk result (Wrote out.old.items out.new.items (struct_pieces packed gap.now (fields_with (map (type_pieces (spelled_by scope.now).named) fields.now)))) }
{
    if packed {
        put_packed(out, scope, fields, gap)
    } else {
        put_fields(out, scope, fields, gap)
    }
}

/// Appends a type behind blanks.
#[cycle(types)]
pub(crate) fn put_type(out: &mut Vec<u8>, scope: &Scope, t: &Ty, gap: &[u8]) -> Result<(), NoMemory>
    ensures { OnOk result (Wrote out.old.items out.new.items (type_at (spelled_by scope.now) gap.now t.now)) }
{
    match t {
        Ty::Void => put_word(out, gap, b"void"),
        Ty::Int(width) => put_int_type(out, gap, *width),
        Ty::Ptr => put_word(out, gap, b"ptr"),
        Ty::Array(count, element) => put_array(out, scope, *count, element.get(), gap),
        Ty::Struct(packed, fields) => put_struct(out, scope, *packed, fields.as_slice(), gap),
        Ty::Named(number) => put_local(out, gap, type_name(scope, *number)),
    }
}
