ghost use Rattle.std.specs.Prelude.{◌≡◌, ◌^◌, ◌<◌, ◌≤◌, IfOk};
ghost use Rattle.no_eval.specs.Binary.{udiv_of, urem_of, sdiv_of, srem_of, is_overflow as is_overflow_of};

use crate::number::{greatest, least, signed, wrapped};
use no_ir::Trap;

/// The quotient of two unsigned numbers.
pub(crate) fn udiv(w: u8, a: u64, b: u64) -> Result<u64, Trap>
    requires { a < 2 ^ w }
    ensures value { result ≡ udiv_of a b }
    ensures within { IfOk result (λ number. number < 2 ^ w) }
{
    if b == 0 {
        return Err(Trap::DivideByZero);
    }
    Ok(a / b)
}

/// The remainder of two unsigned numbers.
pub(crate) fn urem(w: u8, a: u64, b: u64) -> Result<u64, Trap>
    requires { a < 2 ^ w }
    ensures value { result ≡ urem_of a b }
    ensures within { IfOk result (λ number. number < 2 ^ w) }
{
    if b == 0 {
        return Err(Trap::DivideByZero);
    }
    Ok(a % b)
}

/// The quotient of the signed readings, rounded towards zero.
pub(crate) fn sdiv(w: u8, a: u64, b: u64) -> Result<u64, Trap>
    requires some { 0 < w }
    requires most { w ≤ 64 }
    requires left { a < 2 ^ w }
    requires right { b < 2 ^ w }
    ensures value { result ≡ sdiv_of w a b }
    ensures within { IfOk result (λ number. number < 2 ^ w) }
{
    if b == 0 {
        return Err(Trap::DivideByZero);
    }
    if is_overflow(w, a, b) {
        return Err(Trap::DivideOverflow);
    }
    Ok(wrapped(w, signed(w, a) / signed(w, b)))
}

/// The remainder of the signed readings, with the dividend's sign.
pub(crate) fn srem(w: u8, a: u64, b: u64) -> Result<u64, Trap>
    requires some { 0 < w }
    requires most { w ≤ 64 }
    requires left { a < 2 ^ w }
    requires right { b < 2 ^ w }
    ensures value { result ≡ srem_of w a b }
    ensures within { IfOk result (λ number. number < 2 ^ w) }
{
    if b == 0 {
        return Err(Trap::DivideByZero);
    }
    if is_overflow(w, a, b) {
        return Err(Trap::DivideOverflow);
    }
    Ok(wrapped(w, signed(w, a) % signed(w, b)))
}

/// Whether the least signed value is divided by -1.
fn is_overflow(w: u8, a: u64, b: u64) -> bool
    requires some { 0 < w }
    requires most { w ≤ 64 }
    ensures { result ≡ is_overflow_of w a b }
{
    a == least(w) && b == greatest(w)
}
