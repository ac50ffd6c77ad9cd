#![tactic(auto, using(crate::proofs::Appending::written_append))]

ghost use Rattle.std.specs.Prelude.{◌≡◌, ◌++◌, OnOk, codes, map, drop, get_or, List, ℕ};
ghost use Rattle.no_ir.specs.declared.types.Ty.{Ty, out-Ty};
ghost use Rattle.no_lex.specs.declared.token.TokenKind.TheVariants as kind;
ghost use Rattle.no_print.specs.Commas.{break as break_pieces, gap_at as gap_at_of};
ghost use Rattle.no_print.specs.Constants.{array_const, const_pieces, element_in, fields_in, member, struct_const, typed, width_in, zero_in};
ghost use Rattle.no_print.specs.Names.{string};
ghost use Rattle.no_print.specs.Pieces.{Piece, glued, piece, spaced, with_commas};
ghost use Rattle.no_print.specs.Scopes.{spelled_by};
ghost use Rattle.no_print.specs.Wrote.{Wrote};

use crate::names::put_string;
use crate::numbers::put_number;
use crate::output::{GLUED, SPACED, gap_at, put_break, put_sign, put_token, put_word};
use crate::places::{put_address_as_int, put_int_as_address, put_place};
use crate::scope::{Scope, resolved};
use crate::types::{put_no_braces, put_type};
use no_ir::{Const, NoMemory, Ty};

/// Appends the zero of a type behind blanks.
fn put_zero(out: &mut Vec<u8>, gap: &[u8], t: &Ty) -> Result<(), NoMemory>
    ensures { OnOk result (Wrote out.old.items out.new.items (zero_in gap.now (out-Ty t.now))) }
{
    match t {
        Ty::Int(width) => put_number(out, *width, gap, 0),
        Ty::Ptr => put_word(out, gap, b"null"),
        _ => put_word(out, gap, b"zeroinitializer"),
    }
}

/// The width of an integer type, and 64 of another type.
fn width_of(t: &Ty) -> u8
    ensures { result ≡ width_in (out-Ty t.now) }
{
    match t {
        Ty::Int(width) => *width,
        _ => 64,
    }
}

/// The type of an array's elements, and otherwise the other type.
fn element_of<'a>(t: &'a Ty, other: &'a Ty) -> &'a Ty
    requires { other.now ≡ Ty.Void }
    ensures { result.now ≡ element_in (out-Ty t.now) }
{
    match t {
        Ty::Array(_, element) => element.get(),
        _ => other,
    }
}

/// The types of a struct's fields, and of no other type any.
fn fields_of(t: &Ty) -> &[Ty]
    ensures { result.now ≡ fields_in (out-Ty t.now) }
{
    match t {
        Ty::Struct(_, fields) => fields.as_slice(),
        _ => &[],
    }
}

/// Appends a `c` string behind blanks.
fn put_text(out: &mut Vec<u8>, gap: &[u8], bytes: &[u8]) -> Result<(), NoMemory>
    ensures { OnOk result (Wrote out.old.items out.new.items (piece kind.CMark gap.now (codes "c") ++ string glued bytes.now)) }
{
    put_token(out, gap, b"c")?;
    put_string(out, GLUED, bytes)?;
    Ok(())
}

/// Appends a type and a constant of it behind blanks.
#[cycle(constants)]
fn put_member(
    out: &mut Vec<u8>,
    scope: &Scope,
    c: &Const,
    t: &Ty,
    gap: &[u8],
) -> Result<(), NoMemory>
    ensures { OnOk result (Wrote out.old.items out.new.items (member (spelled_by scope.now) gap.now t.now (const_pieces (spelled_by scope.now) c.now))) }
{
    put_type(out, scope, t, gap)?;
    put_const(out, scope, c, t, SPACED)?;
    Ok(())
}

/// Appends the element of this number.
#[cycle(constants)]
fn put_element(
    out: &mut Vec<u8>,
    scope: &Scope,
    c: &Const,
    t: &Ty,
    k: usize,
) -> Result<(), NoMemory>
    ensures { OnOk result (Wrote out.old.items out.new.items (break_pieces k ++ member (spelled_by scope.now) (gap_at_of glued k) t.now (const_pieces (spelled_by scope.now) c.now))) }
{
    put_break(out, k)?;
    put_member(out, scope, c, t, gap_at(GLUED, k))?;
    Ok(())
}

/// Appends elements with commas.
#[cycle(constants)]
fn put_elements(
    out: &mut Vec<u8>,
    scope: &Scope,
    elements: &[Const],
    t: &Ty,
) -> Result<(), NoMemory>
    ensures { OnOk result (Wrote out.old.items out.new.items (with_commas (λ (gap : List ℕ) (c : Ty → List ℕ → List Piece). member (spelled_by scope.now) gap t.now c) glued (map (const_pieces (spelled_by scope.now)) elements.now))) }
{
    for (k, element) in elements.iter().enumerate() {
        put_element(out, scope, element, t, k)?;
    }
    Ok(())
}

/// Appends an array behind blanks.
#[cycle(constants)]
fn put_array(
    out: &mut Vec<u8>,
    scope: &Scope,
    elements: &[Const],
    t: &Ty,
    gap: &[u8],
) -> Result<(), NoMemory>
    ensures { OnOk result (Wrote out.old.items out.new.items (array_const (spelled_by scope.now) gap.now (element_in (out-Ty t.now)) (map (const_pieces (spelled_by scope.now)) elements.now))) }
{
    let void = Ty::Void;
    let element = element_of(&*t, &void);
    put_sign(out, gap, b"[")?;
    put_elements(out, scope, elements, element)?;
    put_sign(out, GLUED, b"]")?;
    Ok(())
}

/// The first of the types, and otherwise the other type.
fn first_type<'a>(types: &'a [Ty], other: &'a Ty) -> &'a Ty
    ensures { result.now ≡ get_or types.now 0 other.now }
{
    match types {
        [first, ..] => first,
        [] => other,
    }
}

/// The types behind the first.
fn behind_first(types: &[Ty]) -> &[Ty]
    ensures { result.now ≡ drop 1 types.now }
{
    match types {
        [_, more @ ..] => more,
        [] => types,
    }
}

/// Appends the field of this number.
#[cycle(constants)]
fn put_field(
    out: &mut Vec<u8>,
    scope: &Scope,
    c: &Const,
    types: &[Ty],
    k: usize,
) -> Result<(), NoMemory>
    ensures { OnOk result (Wrote out.old.items out.new.items (break_pieces k ++ member (spelled_by scope.now) spaced (get_or types.now 0 Ty.Void) (const_pieces (spelled_by scope.now) c.now))) }
{
    let void = Ty::Void;
    put_break(out, k)?;
    put_member(out, scope, c, first_type(&*types, &void), SPACED)?;
    Ok(())
}

/// Appends fields with commas.
#[cycle(constants)]
fn put_all_fields(
    out: &mut Vec<u8>,
    scope: &Scope,
    fields: &[Const],
    types: &[Ty],
) -> Result<(), NoMemory>
    ensures { OnOk result (Wrote out.old.items out.new.items (with_commas (λ (gap : List ℕ) (field : List ℕ → List Piece). field gap) spaced (typed (spelled_by scope.now) (map (const_pieces (spelled_by scope.now)) fields.now) types.now))) }
{
    let mut rest = types;
    for (k, field) in fields.iter().enumerate() {
        put_field(out, scope, field, rest, k)?;
        rest = behind_first(rest);
    }
    Ok(())
}

/// Appends a struct behind blanks.
#[cycle(constants)]
fn put_struct(
    out: &mut Vec<u8>,
    scope: &Scope,
    fields: &[Const],
    t: &Ty,
    gap: &[u8],
) -> Result<(), NoMemory>
    ensures { OnOk result (Wrote out.old.items out.new.items (struct_const (spelled_by scope.now) gap.now (fields_in (out-Ty t.now)) (map (const_pieces (spelled_by scope.now)) fields.now))) }
{
    if fields.len() == 0 {
        return put_no_braces(out, gap);
    }
    put_sign(out, gap, b"{")?;
    put_all_fields(out, scope, fields, fields_of(t))?;
    put_sign(out, SPACED, b"}")?;
    Ok(())
}

/// Appends a constant at its type behind blanks.
#[cycle(constants)]
pub(crate) fn put_const(
    out: &mut Vec<u8>,
    scope: &Scope,
    c: &Const,
    t: &Ty,
    gap: &[u8],
) -> Result<(), NoMemory>
    ensures { OnOk result (Wrote out.old.items out.new.items (const_pieces (spelled_by scope.now) c.now t.now gap.now)) }
{
    match c {
        Const::Zero => put_zero(out, gap, resolved(&*scope, &*t)),
        Const::Int(n) => put_number(out, width_of(resolved(&*scope, &*t)), gap, *n),
        Const::Str(bytes) => put_text(out, gap, bytes.as_slice()),
        Const::Array(elements) => {
            put_array(out, scope, elements.as_slice(), resolved(&*scope, &*t), gap)
        }
        Const::Struct(fields) => put_struct(
            out,
            scope,
            fields.as_slice(),
            resolved(&*scope, &*t),
            gap,
        ),
        Const::Address(place) => put_place(out, scope, place, gap),
        Const::AddressAsInt(place) => put_address_as_int(out, scope, t, place, gap),
        Const::IntAsPtr(n) => put_int_as_address(out, gap, *n),
    }
}
