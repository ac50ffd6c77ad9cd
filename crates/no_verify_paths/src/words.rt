ghost use Rattle.std.specs.Prelude.{◌≡◌, ℕ, ◌%◌, ◌≤◌, ◌&&◌, ◌||◌, ◌==◌};
ghost use Rattle.no_verify_paths.specs.Words.{has};

/// Whether a set has the member of a register.
pub(crate) fn is_member(word: u64, register: u32) -> bool
    ensures { result ≡ has word (register % 64) }
{
    (word >> (register % 64)) & 1 == 1
}

/// A set with the member of a register.
pub(crate) fn with_member(word: u64, register: u32) -> u64
    ensures { (i : ℕ) → has result i ≡ (has word i || i == register % 64) }
{
    word | 1 << (register % 64)
}

/// The members of both sets.
pub(crate) fn meet(a: u64, b: u64) -> u64
    ensures members { (i : ℕ) → has result i ≡ (has a i && has b i) }
    ensures less { result ≤ a }
{
    a & b
}

/// The members of either set.
pub(crate) fn join(a: u64, b: u64) -> u64
    ensures { (i : ℕ) → has result i ≡ (has a i || has b i) }
{
    a | b
}
