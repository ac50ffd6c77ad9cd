ghost use Rattle.std.specs.Prelude.{◌≡◌, ◌%◌, ◌^◌, ◌<◌, ◌≤◌};
ghost use Rattle.no_eval.specs.Cast.{cast_of, GoesBetween};
ghost use Rattle.no_eval.specs.Numbers.{signed as signed_of, modulo};

use crate::number::{low_bits, signed, wrapped};
use no_ir::CastOp;

/// What a conversion makes of a number of `from` bits: a number of `to` bits.
///
/// `Trunc` goes to fewer bits, `ZExt` and `SExt` to more, `BitCast` to as many. A pointer has the layout's width;
/// `PtrToInt` and `IntToPtr` take and give any.
pub fn cast(op: CastOp, from: u8, to: u8, a: u64) -> u64
    requires some { 0 < from }
    requires most { from ≤ 64 }
    requires some_to { 0 < to }
    requires most_to { to ≤ 64 }
    requires between { GoesBetween op from to }
    requires operand { a < 2 ^ from }
    ensures value { result ≡ cast_of op from to a }
    ensures within { result < 2 ^ to }
{
    match op {
        CastOp::Trunc => truncated(to, a),
        CastOp::ZExt => zero_extended(from, to, a),
        CastOp::SExt => sign_extended(from, to, a),
        CastOp::PtrToInt => truncated(to, a),
        CastOp::IntToPtr => truncated(to, a),
        CastOp::BitCast => a,
    }
}

/// The number modulo 2^to, which is the number itself where it has at most so many bits.
fn truncated(to: u8, a: u64) -> u64
    requires some { 0 < to }
    requires most { to ≤ 64 }
    ensures value { result ≡ a % 2 ^ to }
    ensures within { result < 2 ^ to }
{
    low_bits(to, a)
}

/// The number itself.
#[tactic(auto, using(std::proofs::lemmas::Nat::pow_below))]
fn zero_extended(from: u8, to: u8, a: u64) -> u64
    requires wider { from < to }
    requires operand { a < 2 ^ from }
    ensures value { result ≡ a }
    ensures within { result < 2 ^ to }
{
    a
}

/// The number of more bits with the same signed reading.
fn sign_extended(from: u8, to: u8, a: u64) -> u64
    requires some { 0 < from }
    requires wider { from < to }
    requires most { to ≤ 64 }
    requires operand { a < 2 ^ from }
    ensures value { result ≡ modulo to (signed_of from a) }
    ensures within { result < 2 ^ to }
{
    wrapped(to, signed(from, a))
}
