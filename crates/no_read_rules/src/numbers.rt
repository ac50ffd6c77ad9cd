ghost use Rattle.std.specs.Prelude.{◌≡◌, ◌+◌, ◌≤◌, ◌<◌, ◌^◌, IfOk};
ghost use Rattle.no_read_rules.specs.Numbers.{decimal, is_negative, digits_of, kept, integer_at, count_of};

use crate::Flaw;

/// Decimal digits as a number of at most this size.
pub fn decimal(most: u64, digits: &[u8]) -> Option<u64>
    ensures { result ≡ decimal most digits.now }
{
    let mut sum = 0u64;
    for digit in digits {
        if *digit < b'0' || *digit > b'9' {
            return None;
        }
        sum = sum.checked_mul(10)?.checked_add((*digit - b'0') as u64)?;
        if sum > most {
            return None;
        }
    }
    Some(sum)
}

/// Whether bytes begin with a minus sign.
pub fn is_negative(bytes: &[u8]) -> bool
    ensures { result ≡ is_negative bytes.now }
{
    matches!(bytes, [b'-', ..])
}

/// What stands behind a minus sign, or all where there is none.
pub fn digits_of(bytes: &[u8]) -> &[u8]
    ensures { result.now ≡ digits_of bytes.now }
{
    match bytes {
        [b'-', digits @ ..] => digits,
        _ => bytes,
    }
}

/// The greatest number of so many bits.
fn largest(width: u8) -> u64
    requires some { 0 < width }
    requires fits { width ≤ 64 }
    ensures { result + 1 ≡ 2 ^ width }
{
    if width == 64 {
        u64::MAX
    } else {
        (1u64 << width) - 1
    }
}

fn kept(width: u8, negative: bool, size: Option<u64>) -> Result<u64, Flaw>
    requires some { 0 < width }
    requires fits { width ≤ 64 }
    ensures is { result ≡ kept width negative size }
    ensures below { IfOk result (λ n. n < 2 ^ width) }
{
    let most = largest(width);
    match size {
        None => Err(Flaw::Number),
        Some(0) => Ok(0),
        Some(size) if negative && size <= most && size - 1 <= most - size => Ok(most - (size - 1)),
        Some(size) if !negative && size <= most => Ok(size),
        Some(_) => Err(Flaw::Number),
    }
}

/// An integer of a type of so many bits, as a number below 2 to the power of these.
pub fn integer_at(width: u8, spelling: &[u8]) -> Result<u64, Flaw>
    ensures is { result ≡ integer_at width spelling.now }
    ensures below { IfOk result (λ n. (0 < width) × (width ≤ 64) × (n < 2 ^ width)) }
{
    if width == 0 || width > 64 {
        return Err(Flaw::Syntax);
    }
    let size = decimal(u64::MAX, digits_of(spelling));
    kept(width, is_negative(spelling), size)
}

/// A count of elements.
pub fn count_of(spelling: &[u8]) -> Result<u64, Flaw>
    ensures { result ≡ count_of spelling.now }
{
    if is_negative(spelling) {
        return Err(Flaw::Syntax);
    }
    match decimal(u32::MAX as u64, spelling) {
        Some(count) => Ok(count),
        None => Err(Flaw::Number),
    }
}
