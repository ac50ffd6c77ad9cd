ghost use Rattle.std.specs.Prelude.{◌≡◌, ◌++◌, decimal, OnOk};
ghost use Rattle.no_print.specs.Commas.{break as break_pieces, gap_at as gap_at_of};
ghost use Rattle.no_print.specs.Pieces.{comma, integer, sign, word};
ghost use Rattle.no_print.specs.Wrote.{Wrote};

use itoa::Buffer;
use no_ir::NoMemory;

/// Nothing stands before a token.
pub(crate) const GLUED: &[u8] = b"";
/// A space stands before a token.
pub(crate) const SPACED: &[u8] = b" ";
/// A token begins a line.
pub(crate) const LINED: &[u8] = b"\n";
/// A token begins the line of an instruction.
pub(crate) const INDENTED: &[u8] = b"\n  ";
/// An empty line stands before a token.
pub(crate) const PARTED: &[u8] = b"\n\n";

/// Appends bytes.
pub(crate) fn put(out: &mut Vec<u8>, bytes: &[u8]) -> Result<(), NoMemory>
    ensures { OnOk result (out.new.items ≡ out.old.items ++ bytes.now) }
{
    out.extend_from_slice(bytes)?;
    Ok(())
}

/// Appends a token behind blanks.
pub(crate) fn put_token(out: &mut Vec<u8>, gap: &[u8], bytes: &[u8]) -> Result<(), NoMemory>
    ensures { OnOk result (out.new.items ≡ out.old.items ++ (gap.now ++ bytes.now)) }
{
    put(out, gap)?;
    put(out, bytes)
}

/// Appends a word behind blanks.
pub(crate) fn put_word(out: &mut Vec<u8>, gap: &[u8], bytes: &[u8]) -> Result<(), NoMemory>
    ensures { OnOk result (Wrote out.old.items out.new.items (word gap.now bytes.now)) }
{
    put_token(out, gap, bytes)
}

/// Appends a sign behind blanks.
pub(crate) fn put_sign(out: &mut Vec<u8>, gap: &[u8], bytes: &[u8]) -> Result<(), NoMemory>
    ensures { OnOk result (Wrote out.old.items out.new.items (sign gap.now bytes.now)) }
{
    put_token(out, gap, bytes)
}

/// Appends a comma.
pub(crate) fn put_comma(out: &mut Vec<u8>) -> Result<(), NoMemory>
    ensures { OnOk result (Wrote out.old.items out.new.items comma) }
{
    put_sign(out, GLUED, b",")
}

/// Appends a decimal number behind blanks.
pub(crate) fn put_decimal(out: &mut Vec<u8>, gap: &[u8], n: u64) -> Result<(), NoMemory>
    ensures { OnOk result (Wrote out.old.items out.new.items (integer gap.now (decimal n))) }
{
    let mut buffer = Buffer::new();
    put_token(out, gap, buffer.format(n).as_bytes())
}

/// Appends what stands in front of the item of this number in a list: a comma, but not in front of the first.
pub(crate) fn put_break(out: &mut Vec<u8>, k: usize) -> Result<(), NoMemory>
    ensures { OnOk result (Wrote out.old.items out.new.items (break_pieces k)) }
{
    if k == 0 { Ok(()) } else { put_comma(out) }
}

/// The blanks in front of the item of this number in a list, of which the first has its own.
pub(crate) fn gap_at(gap: &[u8], k: usize) -> &[u8]
    ensures { result.now ≡ gap_at_of gap.now k }
{
    if k == 0 { gap } else { SPACED }
}
