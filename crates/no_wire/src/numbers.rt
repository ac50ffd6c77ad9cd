ghost use Rattle.std.specs.Prelude.{◌≡◌, ◌+◌, ◌<◌, ◌≤◌, ◌*◌, drop, length, IfOk};
ghost use Rattle.no_wire.specs.Fronts.{number_32, number_64};
ghost use Rattle.no_wire.specs.Reading.{all_numbers, all_pairs};

use no_ir::{List, NoMemory};
use std::alloc::Global;

/// The number of 4 bytes at a place, the most significant byte first.
pub(crate) fn u32_at(bytes: &[u8], at: usize) -> u32
    requires { at + 4 ≤ length bytes.now }
    ensures { result ≡ number_32 bytes.now at }
{
    u32::from_be_bytes([bytes[at], bytes[at + 1], bytes[at + 2], bytes[at + 3]])
}

/// The number of 8 bytes at a place, the most significant byte first.
pub(crate) fn u64_at(bytes: &[u8], at: usize) -> u64
    requires { at + 8 ≤ length bytes.now }
    ensures { result ≡ number_64 bytes.now at }
{
    u64::from_be_bytes([
        bytes[at],
        bytes[at + 1],
        bytes[at + 2],
        bytes[at + 3],
        bytes[at + 4],
        bytes[at + 5],
        bytes[at + 6],
        bytes[at + 7],
    ])
}

/// The bytes from a place on.
pub(crate) fn behind(bytes: &[u8], at: usize) -> &[u8]
    requires { at ≤ length bytes.now }
    ensures { result.now ≡ drop at bytes.now }
{
    bytes.split_at(at).1
}

/// All numbers of 8 bytes.
#[tactic(auto, using(crate::proofs::Lists::numbers_on))]
pub(crate) fn numbers(alloc: Global, bytes: &[u8]) -> Result<List<u64>, NoMemory>
    ensures { IfOk result (λ all. all ≡ all_numbers bytes.now) }
{
    let mut all = List::new(alloc);
    let mut rest = bytes;
    for _ in 0..bytes.len() / 8 {
        let (number, behind) = rest.split_at(8);
        all.push(u64_at(number, 0))?;
        rest = behind;
    }
    Ok(all)
}

/// All pairs of numbers of 4 bytes.
#[tactic(auto, using(crate::proofs::Lists::pairs_on))]
pub(crate) fn pairs(alloc: Global, bytes: &[u8]) -> Result<List<(u32, u32)>, NoMemory>
    ensures { IfOk result (λ all. all ≡ all_pairs bytes.now) }
{
    let mut all = List::new(alloc);
    let mut rest = bytes;
    for _ in 0..bytes.len() / 8 {
        let (pair, behind) = rest.split_at(8);
        all.push((u32_at(pair, 0), u32_at(pair, 4)))?;
        rest = behind;
    }
    Ok(all)
}
