ghost use Rattle.std.specs.Prelude.{◌≡◌, ◌^◌, IfOk, nat_lt};
ghost use Rattle.std.specs.List.{list_all};
ghost use Rattle.no_verify_types.specs.Typing.{all_differ, case_numbers, switch_typed};

use crate::constants::has_bits;
use crate::operands::operand_fits;
use no_ir::{Module, NoMemory, Operand, Role};
use no_module::Scalar;
use std::alloc::Global;
use std::collections::BTreeSet;

/// Whether the cases' numbers have at most so many bits.
fn numbers_fit(width: u8, cases: &[(u64, u32)]) -> bool
    ensures { result ≡ list_all (λ n. nat_lt n (2 ^ width)) (case_numbers cases.now) }
{
    for case in cases {
        if !has_bits(case.0, width) {
            return false;
        }
    }
    true
}

/// Whether no number comes twice among the cases.
#[tactic(auto, using(crate::proofs::Differ::none_seen))]
fn all_differ(alloc: Global, cases: &[(u64, u32)]) -> Result<bool, NoMemory>
    ensures { IfOk result (λ all. all ≡ all_differ (case_numbers cases.now)) }
{
    let mut seen = BTreeSet::new(alloc);
    for case in cases {
        let number = case.0;
        if !seen.insert(number)? {
            return Ok(false);
        }
    }
    Ok(true)
}

pub(crate) fn switch_typed(
    alloc: Global,
    program: &Module,
    role: Role,
    types: &[Option<Scalar>],
    width: u8,
    value: &Operand,
    cases: &[(u64, u32)],
) -> Result<bool, NoMemory>
    ensures { IfOk result (λ typed. typed ≡ switch_typed program.now role types.now width value.now cases.now) }
{
    if operand_fits(program, role, types, Scalar::integer(width), value)
        && numbers_fit(width, cases)
    {
        all_differ(alloc, cases)
    } else {
        Ok(false)
    }
}
