ghost use Rattle.std.specs.Prelude.{◌≡◌, ℕ, ◌<◌, false, IfOk, length, slice_index, vec_len};
ghost use Rattle.std.specs.List.{All};
ghost use Rattle.no_verify_paths.specs.Words.{has};
ghost use Rattle.no_verify_paths.specs.Judge.{is_in_row, is_made};

use crate::words::with_member;
use no_ir::NoMemory;
use std::alloc::Global;

/// The set of the registers of a row.
pub(crate) fn set_of(registers: &[u32]) -> u64
    ensures { (i : ℕ) → has result i ≡ is_in_row registers.now i }
{
    let mut word = 0;
    for register in registers {
        word = with_member(word, *register);
    }
    word
}

/// Adds to the set of each block the registers that it assigns.
fn fill_sets(gens: &mut [u64], assignments: &[(u32, u32)])
    requires within { All (λ p. p.1 < length gens.old) assignments.now }
    requires empty { (b i : ℕ) → has (slice_index gens.old b) i ≡ false }
    ensures { (b i : ℕ) → has (slice_index gens.new b) i ≡ is_made assignments.now b i }
{
    for pair in assignments {
        let at = pair.1 as usize;
        gens[at] = with_member(gens[at], pair.0);
    }
}

/// For each of so many blocks the set of the registers that it assigns.
pub(crate) fn sets_of(
    alloc: Global,
    count: usize,
    assignments: &[(u32, u32)],
) -> Result<Vec<u64>, NoMemory>
    requires { All (λ p. p.1 < count) assignments.now }
    ensures wide { IfOk result (λ gens. vec_len gens ≡ count) }
    ensures made { IfOk result (λ gens. (b i : ℕ) → has (slice_index gens.items b) i ≡ is_made assignments.now b i) }
{
    let mut gens = vec![in alloc; 0u64; count]?;
    fill_sets(&mut gens, assignments);
    Ok(gens)
}
