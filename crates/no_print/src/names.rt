ghost use Rattle.std.specs.Prelude.{◌≡◌, ◌++◌, ◌∷◌, [], ◌<◌, OnOk, decimal, List, ℕ};
ghost use Rattle.no_lex.specs.Spelling.{is_name, is_name_byte};
ghost use Rattle.no_print.specs.Names.{escaped, escaped_byte, global_name, hex_digit, int_type, is_plain, label_line, label_spelling, local_name, name_at, quoted, spelling, string, truth};
ghost use Rattle.no_print.specs.Pieces.{word};
ghost use Rattle.no_print.specs.Wrote.{Wrote};

use crate::output::{put, put_token, put_word};
use itoa::Buffer;
use no_ir::{Bytes, NoMemory};

/// An upper-case hexadecimal digit.
fn hex_digit(n: u8) -> u8
    requires { n < 16 }
    ensures { result ≡ hex_digit n }
{
    if n < 10 { b'0' + n } else { b'A' - 10 + n }
}

/// Whether a byte stands for itself in a string.
fn is_plain(byte: u8) -> bool
    ensures { result ≡ is_plain byte }
{
    byte >= 32 && byte <= 126 && byte != b'"' && byte != b'\\'
}

/// Appends a byte of a string.
fn put_byte(out: &mut Vec<u8>, byte: u8) -> Result<(), NoMemory>
    ensures { OnOk result (out.new.items ≡ out.old.items ++ escaped_byte byte) }
{
    if is_plain(byte) {
        return put(out, &[byte]);
    }
    put(out, &[b'\\', hex_digit(byte / 16), hex_digit(byte % 16)])
}

/// Appends the bytes of a string.
fn put_escaped(out: &mut Vec<u8>, bytes: &[u8]) -> Result<(), NoMemory>
    ensures { OnOk result (out.new.items ≡ out.old.items ++ escaped bytes.now) }
{
    for byte in bytes {
        put_byte(out, *byte)?;
    }
    Ok(())
}

/// Appends bytes in double quotes.
fn put_quoted(out: &mut Vec<u8>, bytes: &[u8]) -> Result<(), NoMemory>
    ensures { OnOk result (out.new.items ≡ out.old.items ++ quoted bytes.now) }
{
    put(out, b"\"")?;
    put_escaped(out, bytes)?;
    put(out, b"\"")
}

/// Appends a string behind blanks.
pub(crate) fn put_string(out: &mut Vec<u8>, gap: &[u8], bytes: &[u8]) -> Result<(), NoMemory>
    ensures { OnOk result (Wrote out.old.items out.new.items (string gap.now bytes.now)) }
{
    put(out, gap)?;
    put_quoted(out, bytes)?;
    Ok(())
}

fn is_name_byte(byte: u8) -> bool
    ensures { result ≡ is_name_byte byte }
{
    matches!(byte, b'a'..=b'z' | b'A'..=b'Z' | b'0'..=b'9' | b'-' | b'$' | b'.' | b'_')
}

/// Whether a name needs no quotes.
fn is_name(name: &[u8]) -> bool
    ensures { result ≡ is_name name.now }
{
    for byte in name {
        if !is_name_byte(*byte) {
            return false;
        }
    }
    !name.is_empty()
}

/// Appends the one spelling of a name, without its sign: bare where it has only name characters and at least one, and otherwise
/// in quotes, in which a backslash and two upper-case digits stand for a quote, a backslash and what is no printable ASCII.
pub fn put_spelling(out: &mut Vec<u8>, name: &[u8]) -> Result<(), NoMemory>
    ensures { OnOk result (out.new.items ≡ out.old.items ++ spelling name.now) }
{
    if is_name(name) {
        put(out, name)
    } else {
        put_quoted(out, name)
    }
}

/// Appends the name of a global or function behind blanks.
pub(crate) fn put_global(out: &mut Vec<u8>, gap: &[u8], name: &[u8]) -> Result<(), NoMemory>
    ensures { OnOk result (Wrote out.old.items out.new.items (global_name gap.now name.now)) }
{
    put(out, gap)?;
    put(out, b"@")?;
    put_spelling(out, name)
}

/// Appends the name of a register, a label or a type behind blanks.
pub(crate) fn put_local(out: &mut Vec<u8>, gap: &[u8], name: &[u8]) -> Result<(), NoMemory>
    ensures { OnOk result (Wrote out.old.items out.new.items (local_name gap.now name.now)) }
{
    put(out, gap)?;
    put(out, b"%")?;
    put_spelling(out, name)
}

/// Appends a label's name as it stands before its colon.
fn put_label_spelling(out: &mut Vec<u8>, name: &[u8]) -> Result<(), NoMemory>
    ensures { OnOk result (out.new.items ≡ out.old.items ++ label_spelling name.now) }
{
    if name == b"...".as_slice() {
        put_quoted(out, name)
    } else {
        put_spelling(out, name)
    }
}

/// Appends a label and its colon behind blanks.
pub(crate) fn put_label_line(out: &mut Vec<u8>, gap: &[u8], name: &[u8]) -> Result<(), NoMemory>
    ensures { OnOk result (Wrote out.old.items out.new.items (label_line gap.now name.now)) }
{
    put(out, gap)?;
    put_label_spelling(out, name)?;
    put(out, b":")
}

/// The name at a place of a list of names, which is empty past the list's end.
pub(crate) fn name_at(names: &[Bytes], number: u32) -> &[u8]
    ensures { result.now ≡ name_at names.now number }
{
    match names.get(number as usize) {
        Some(name) => name.as_slice(),
        None => b"",
    }
}

/// Appends the name of an integer type behind blanks.
pub(crate) fn put_int_type(out: &mut Vec<u8>, gap: &[u8], width: u8) -> Result<(), NoMemory>
    ensures { OnOk result (Wrote out.old.items out.new.items (int_type gap.now width)) }
{
    let mut buffer = Buffer::new();
    put(out, gap)?;
    put(out, b"i")?;
    put(out, buffer.format(width).as_bytes())
}

/// Appends a truth value behind blanks.
pub(crate) fn put_truth(out: &mut Vec<u8>, gap: &[u8], n: u64) -> Result<(), NoMemory>
    ensures { OnOk result (Wrote out.old.items out.new.items (truth gap.now n)) }
{
    if n == 0 {
        put_word(out, gap, b"false")
    } else {
        put_word(out, gap, b"true")
    }
}
