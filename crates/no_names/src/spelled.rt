ghost use Rattle.std.specs.Prelude.{◌≡◌, bytes_eq, string_bytes, IfOk, Some};
ghost use Rattle.no_names.specs.Spelled.{name_by};
ghost use Rattle.no_print.specs.Names.{spelling};

use no_ir::{Bytes, NoMemory};
use no_print::put_spelling;
use no_read_rules::name_of;
use std::alloc::Global;

/// The one spelling of a name, without its sign: bare where it has only name characters and at least one, and otherwise in
/// quotes, in which a byte that is not printable ASCII, a quote and a backslash are a backslash and two upper-case digits.
pub fn spelled_name(alloc: Global, name: &[u8]) -> Result<String, NoMemory>
    ensures text { IfOk result (λ text. string_bytes text ≡ spelling name.now) }
    ensures again { name_by (spelling name.now) ≡ Some name.now }
{
    let mut out = Vec::new(alloc);
    put_spelling(&mut out, name)?;
    match String::from_utf8(out) {
        Ok(text) => Ok(text),
        Err(_) => unreachable!(),
    }
}

/// Whether a text is the spelling of a name.
fn is_spelling(alloc: Global, name: &[u8], text: &[u8]) -> Result<bool, NoMemory>
    ensures { IfOk result (λ is. is ≡ bytes_eq (spelling name.now) text.now) }
{
    let mut out = Vec::new(alloc);
    put_spelling(&mut out, name)?;
    Ok(out.as_slice() == text)
}

/// The name whose one spelling a text is; none where it is spelled in another way.
pub fn name_by(alloc: Global, text: &[u8]) -> Result<Option<Bytes>, NoMemory>
    ensures { IfOk result (λ name. name ≡ name_by text.now) }
{
    let name = name_of(alloc, text)?;
    if is_spelling(alloc, name.as_slice(), text)? {
        Ok(Some(name))
    } else {
        Ok(None)
    }
}
