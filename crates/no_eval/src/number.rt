ghost use Rattle.std.specs.Prelude.{◌≡◌, ◌-◌, ◌%◌, ◌^◌, ◌<◌, ◌≤◌};
ghost use Rattle.no_eval.specs.Numbers.{signed as signed_of, modulo, least as least_of, greatest as greatest_of};

/// The greatest number of w bits, whose signed reading is -1.
#[tactic(auto, using(crate::proofs::Widths::ones_left))]
pub(crate) fn greatest(w: u8) -> u64
    requires some { 0 < w }
    requires most { w ≤ 64 }
    ensures { result ≡ greatest_of w }
{
    u64::MAX >> (64 - w)
}

/// The number of w bits whose signed reading is the least.
pub(crate) fn least(w: u8) -> u64
    requires some { 0 < w }
    requires most { w ≤ 64 }
    ensures { result ≡ least_of w }
{
    1 << (w - 1)
}

/// The lowest w bits.
#[tactic(auto, using(crate::proofs::Widths::masked))]
pub(crate) fn low_bits(w: u8, n: u64) -> u64
    requires some { 0 < w }
    requires most { w ≤ 64 }
    ensures { result ≡ n % 2 ^ w }
{
    n & greatest(w)
}

/// The signed reading of a number of w bits.
pub fn signed(w: u8, a: u64) -> i64
    requires some { 0 < w }
    requires most { w ≤ 64 }
    requires within { a < 2 ^ w }
    ensures { result ≡ signed_of w a }
{
    let gap = greatest(w) - a;
    if a <= gap {
        a as i64
    } else {
        -1 - (gap as i64)
    }
}

/// The number of w bits that equals z modulo 2^w.
#[tactic(auto, using(crate::proofs::Widths::congruent))]
pub(crate) fn wrapped(w: u8, z: i64) -> u64
    requires some { 0 < w }
    requires most { w ≤ 64 }
    ensures { result ≡ modulo w z }
{
    low_bits(w, z.cast_unsigned())
}
