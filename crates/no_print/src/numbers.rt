ghost use Rattle.std.specs.Prelude.{◌≡◌, OnOk};
ghost use Rattle.std.specs.Fmt.{signed_decimal};
ghost use Rattle.no_print.specs.Constants.{index_pieces, index_width};
ghost use Rattle.no_eval.specs.Numbers.{signed as signed_of};
ghost use Rattle.no_print.specs.Names.{number};
ghost use Rattle.no_print.specs.Pieces.{integer};
ghost use Rattle.no_print.specs.Wrote.{Wrote};

use crate::names::{put_int_type, put_truth};
use crate::output::{SPACED, put_token};
use itoa::Buffer;
use no_ir::NoMemory;

/// A number of so many bits, with its sign.
fn signed(w: u8, n: u64) -> i128
    ensures { result ≡ signed_of w n }
{
    if w > 64 {
        return n as i128;
    }
    let size: u128 = 1 << w;
    if 2 * (n as u128) < size {
        n as i128
    } else {
        n as i128 - size as i128
    }
}

/// Appends a number of so many bits, with its sign, behind blanks.
pub(crate) fn put_signed(out: &mut Vec<u8>, gap: &[u8], w: u8, n: u64) -> Result<(), NoMemory>
    ensures { OnOk result (Wrote out.old.items out.new.items (integer gap.now (signed_decimal (signed_of w n)))) }
{
    let mut buffer = Buffer::new();
    put_token(out, gap, buffer.format(signed(w, n)).as_bytes())
}

/// Appends a number of an integer type behind blanks.
pub(crate) fn put_number(out: &mut Vec<u8>, w: u8, gap: &[u8], n: u64) -> Result<(), NoMemory>
    ensures { OnOk result (Wrote out.old.items out.new.items (number w gap.now n)) }
{
    if w == 1 {
        put_truth(out, gap, n)
    } else {
        put_signed(out, gap, w, n)
    }
}

/// The width that an index is printed at.
fn index_width(index: i64) -> u8
    ensures { result ≡ index_width index }
{
    if index >= -2147483648 && index <= 2147483647 {
        32
    } else {
        64
    }
}

/// Appends a constant index and its type.
pub(crate) fn put_index(out: &mut Vec<u8>, index: i64) -> Result<(), NoMemory>
    ensures { OnOk result (Wrote out.old.items out.new.items (index_pieces index)) }
{
    let mut buffer = Buffer::new();
    put_int_type(out, SPACED, index_width(index))?;
    put_token(out, SPACED, buffer.format(index).as_bytes())?;
    Ok(())
}
