#![tactic(auto, using(crate::proofs::Appending::written_append))]

ghost use Rattle.std.specs.Prelude.{◌≡◌, ◌++◌, OnOk, codes};
ghost use Rattle.no_print.specs.Constants.{address_as_int, gep_place, index_pieces, int_as_address, place_pieces, symbol_name as symbol_name_of, type_at};
ghost use Rattle.no_print.specs.Names.{global_name};
ghost use Rattle.no_print.specs.Pieces.{behind_commas, comma, glued, sign, spaced, word};
ghost use Rattle.no_print.specs.Scopes.{spelled_by};
ghost use Rattle.no_print.specs.Wrote.{Wrote};

use crate::names::{put_global, put_int_type};
use crate::numbers::{put_index, put_signed};
use crate::output::{GLUED, SPACED, put_comma, put_sign, put_word};
use crate::scope::{Scope, symbol_name};
use crate::types::put_type;
use no_ir::{NoMemory, Place, Ty};

/// Appends a constant index behind a comma.
fn put_next_index(out: &mut Vec<u8>, index: i64) -> Result<(), NoMemory>
    ensures { OnOk result (Wrote out.old.items out.new.items (comma ++ index_pieces index)) }
{
    put_comma(out)?;
    put_index(out, index)?;
    Ok(())
}

/// Appends constant indices, each behind a comma.
fn put_indices(out: &mut Vec<u8>, indices: &[i64]) -> Result<(), NoMemory>
    ensures { OnOk result (Wrote out.old.items out.new.items (behind_commas index_pieces indices.now)) }
{
    for index in indices {
        put_next_index(out, *index)?;
    }
    Ok(())
}

/// Appends the symbol and the indices of a constant `getelementptr`.
fn put_gep_end(out: &mut Vec<u8>, scope: &Scope, place: &Place) -> Result<(), NoMemory>
    ensures { OnOk result (Wrote out.old.items out.new.items (global_name spaced (symbol_name_of (spelled_by scope.now) place.now.symbol) ++ (behind_commas index_pieces place.now.indices ++ sign glued (codes ")")))) }
{
    put_global(out, SPACED, symbol_name(scope, &place.symbol))?;
    put_indices(out, place.indices.as_slice())?;
    put_sign(out, GLUED, b")")?;
    Ok(())
}

/// Appends a constant `getelementptr` behind blanks.
fn put_gep_place(
    out: &mut Vec<u8>,
    scope: &Scope,
    place: &Place,
    gap: &[u8],
) -> Result<(), NoMemory>
    ensures { OnOk result (Wrote out.old.items out.new.items (gep_place (spelled_by scope.now) gap.now place.now)) }
{
    put_word(out, gap, b"getelementptr")?;
    put_sign(out, SPACED, b"(")?;
    put_type(out, scope, &place.base, GLUED)?;
    put_comma(out)?;
    put_word(out, SPACED, b"ptr")?;
    put_gep_end(out, scope, place)?;
    Ok(())
}

/// Appends an address behind blanks.
pub(crate) fn put_place(
    out: &mut Vec<u8>,
    scope: &Scope,
    place: &Place,
    gap: &[u8],
) -> Result<(), NoMemory>
    ensures { OnOk result (Wrote out.old.items out.new.items (place_pieces (spelled_by scope.now) gap.now place.now)) }
{
    match place.indices.as_slice() {
        [] => put_global(out, gap, symbol_name(scope, &place.symbol)),
        [_, ..] => put_gep_place(out, scope, place, gap),
    }
}

/// Appends the type that an address is converted to.
fn put_target(out: &mut Vec<u8>, scope: &Scope, t: &Ty) -> Result<(), NoMemory>
    ensures { OnOk result (Wrote out.old.items out.new.items (word spaced (codes "to") ++ (type_at (spelled_by scope.now) spaced t.now ++ sign glued (codes ")")))) }
{
    put_word(out, SPACED, b"to")?;
    put_type(out, scope, t, SPACED)?;
    put_sign(out, GLUED, b")")?;
    Ok(())
}

/// Appends an address as an integer of a type behind blanks.
pub(crate) fn put_address_as_int(
    out: &mut Vec<u8>,
    scope: &Scope,
    t: &Ty,
    place: &Place,
    gap: &[u8],
) -> Result<(), NoMemory>
    ensures { OnOk result (Wrote out.old.items out.new.items (address_as_int (spelled_by scope.now) gap.now t.now place.now)) }
{
    put_word(out, gap, b"ptrtoint")?;
    put_sign(out, SPACED, b"(")?;
    put_word(out, GLUED, b"ptr")?;
    put_place(out, scope, place, SPACED)?;
    put_target(out, scope, t)?;
    Ok(())
}

/// Appends the words behind an integer that is an address.
fn put_to_pointer(out: &mut Vec<u8>) -> Result<(), NoMemory>
    ensures { OnOk result (Wrote out.old.items out.new.items (word spaced (codes "to") ++ (word spaced (codes "ptr") ++ sign glued (codes ")")))) }
{
    put_word(out, SPACED, b"to")?;
    put_word(out, SPACED, b"ptr")?;
    put_sign(out, GLUED, b")")?;
    Ok(())
}

/// Appends an integer as an address behind blanks.
pub(crate) fn put_int_as_address(out: &mut Vec<u8>, gap: &[u8], n: u64) -> Result<(), NoMemory>
    ensures { OnOk result (Wrote out.old.items out.new.items (int_as_address gap.now n)) }
{
    put_word(out, gap, b"inttoptr")?;
    put_sign(out, SPACED, b"(")?;
    put_int_type(out, GLUED, 64)?;
    put_signed(out, SPACED, 64, n)?;
    put_to_pointer(out)?;
    Ok(())
}
