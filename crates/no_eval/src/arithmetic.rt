ghost use Rattle.std.specs.Prelude.{◌≡◌, ◌^◌, ◌<◌, ◌≤◌, IfOk};
ghost use Rattle.no_eval.specs.Binary.{binary_of, add_of, sub_of, mul_of};

use crate::bits::{and, or, xor};
use crate::division::{sdiv, srem, udiv, urem};
use crate::number::low_bits;
use crate::shift::{ashr, lshr, shl};
use no_ir::{BinOp, Trap};

/// What a binary operator gives of two numbers of w bits.
///
/// The four divisions trap: `DivideByZero` where the divisor is 0, and otherwise, for the signed two,
/// `DivideOverflow` where the dividend is the least signed value and the divisor -1. Nothing else traps.
pub fn binary(op: BinOp, w: u8, a: u64, b: u64) -> Result<u64, Trap>
    requires some { 0 < w }
    requires most { w ≤ 64 }
    requires left { a < 2 ^ w }
    requires right { b < 2 ^ w }
    ensures value { result ≡ binary_of op w a b }
    ensures within { IfOk result (λ number. number < 2 ^ w) }
{
    match op {
        BinOp::Add => Ok(add(w, a, b)),
        BinOp::Sub => Ok(sub(w, a, b)),
        BinOp::Mul => Ok(mul(w, a, b)),
        BinOp::UDiv => udiv(w, a, b),
        BinOp::URem => urem(w, a, b),
        BinOp::SDiv => sdiv(w, a, b),
        BinOp::SRem => srem(w, a, b),
        BinOp::Shl => Ok(shl(w, a, b)),
        BinOp::LShr => Ok(lshr(w, a, b)),
        BinOp::AShr => Ok(ashr(w, a, b)),
        BinOp::And => Ok(and(w, a, b)),
        BinOp::Or => Ok(or(w, a, b)),
        BinOp::Xor => Ok(xor(w, a, b)),
    }
}

/// The sum modulo 2^w.
#[tactic(auto, using(crate::proofs::Widths::narrowed))]
fn add(w: u8, a: u64, b: u64) -> u64
    requires some { 0 < w }
    requires most { w ≤ 64 }
    ensures value { result ≡ add_of w a b }
    ensures within { result < 2 ^ w }
{
    low_bits(w, a.wrapping_add(b))
}

/// The difference modulo 2^w.
#[tactic(auto, using(crate::proofs::Widths::less))]
fn sub(w: u8, a: u64, b: u64) -> u64
    requires some { 0 < w }
    requires most { w ≤ 64 }
    requires right { b < 2 ^ w }
    ensures value { result ≡ sub_of w a b }
    ensures within { result < 2 ^ w }
{
    low_bits(w, a.wrapping_sub(b))
}

/// The product modulo 2^w.
#[tactic(auto, using(crate::proofs::Widths::narrowed))]
fn mul(w: u8, a: u64, b: u64) -> u64
    requires some { 0 < w }
    requires most { w ≤ 64 }
    ensures value { result ≡ mul_of w a b }
    ensures within { result < 2 ^ w }
{
    low_bits(w, a.wrapping_mul(b))
}
