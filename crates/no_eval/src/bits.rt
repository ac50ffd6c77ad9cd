ghost use Rattle.std.specs.Prelude.{◌≡◌, ◌^◌, ◌<◌, bit_and, bit_or, bit_xor};

/// The bits that are set in both.
pub(crate) fn and(w: u8, a: u64, b: u64) -> u64
    requires { a < 2 ^ w }
    ensures value { result ≡ bit_and a b }
    ensures within { result < 2 ^ w }
{
    a & b
}

/// The bits that are set in either.
#[tactic(auto, using(std::proofs::lemmas::Nat::or_lt))]
pub(crate) fn or(w: u8, a: u64, b: u64) -> u64
    requires left { a < 2 ^ w }
    requires right { b < 2 ^ w }
    ensures value { result ≡ bit_or a b }
    ensures within { result < 2 ^ w }
{
    a | b
}

/// The bits that are set in one of the two alone.
#[tactic(auto, using(std::proofs::lemmas::Nat::xor_lt))]
pub(crate) fn xor(w: u8, a: u64, b: u64) -> u64
    requires left { a < 2 ^ w }
    requires right { b < 2 ^ w }
    ensures value { result ≡ bit_xor a b }
    ensures within { result < 2 ^ w }
{
    a ^ b
}
