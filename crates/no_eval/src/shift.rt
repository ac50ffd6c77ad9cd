ghost use Rattle.std.specs.Prelude.{◌≡◌, ◌-◌, ◌^◌, ◌<◌, ◌≤◌};
ghost use Rattle.no_eval.specs.Binary.{shl_of, lshr_of, ashr_of};
ghost use Rattle.no_eval.specs.Numbers.{least as least_of, greatest as greatest_of};

use crate::number::{greatest, least, low_bits, signed, wrapped};

/// The bits moved up, with zeros below. By the width or more it is 0.
#[tactic(auto, using(crate::proofs::Widths::shifted))]
pub(crate) fn shl(w: u8, a: u64, b: u64) -> u64
    requires some { 0 < w }
    requires most { w ≤ 64 }
    ensures value { result ≡ shl_of w a b }
    ensures within { result < 2 ^ w }
    ensures wide { w ≤ b → result ≡ 0 }
{
    if b < w as u64 { low_bits(w, a << b) } else { 0 }
}

/// The bits moved down, with zeros above. By the width or more it is 0.
pub(crate) fn lshr(w: u8, a: u64, b: u64) -> u64
    requires most { w ≤ 64 }
    requires within { a < 2 ^ w }
    ensures value { result ≡ lshr_of w a b }
    ensures within { result < 2 ^ w }
    ensures wide { w ≤ b → result ≡ 0 }
{
    if b < w as u64 { a >> b } else { 0 }
}

/// The bits moved down, with the sign above. By the width or more it is the sign in every bit.
pub(crate) fn ashr(w: u8, a: u64, b: u64) -> u64
    requires some { 0 < w }
    requires most { w ≤ 64 }
    requires within { a < 2 ^ w }
    ensures value { result ≡ ashr_of w a b }
    ensures within { result < 2 ^ w }
    ensures wide_positive { w ≤ b → a < least_of w → result ≡ 0 }
    ensures wide_negative { w ≤ b → least_of w ≤ a → result ≡ greatest_of w }
{
    if b < w as u64 {
        wrapped(w, signed(w, a) >> b)
    } else if a < least(w) {
        0
    } else {
        greatest(w)
    }
}
