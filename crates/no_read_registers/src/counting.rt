ghost use Rattle.std.specs.Prelude.{◌≡◌, ◌+◌, ◌^◌, ◌-◌, ℕ, List, true, false, reverse, IfOk};
ghost use Rattle.std.specs.List.{list_all};
ghost use Rattle.no_lex.specs.Spelling.{is_digit, is_digits};
ghost use Rattle.no_read_rules.specs.Numbers.{decimal, is_negative, digits_of};
ghost use Rattle.no_read_registers.specs.Counting.{value, next, next_where, stripped, behind_name, in_range, label_fits};

use no_ir::{Bytes, List, NoMemory};
use no_lex::{is_digits, is_integer};
use no_read_rules::{decimal, digits_of, is_negative};
use std::alloc::Global;

/// The digits of the number that is one more, the least first.
pub(crate) fn next(alloc: Global, digits: &[u8]) -> Result<Bytes, NoMemory>
    ensures { IfOk result (λ all. all ≡ next digits.now) }
{
    let mut all = List::new(alloc);
    let mut adds = true;
    for digit in digits {
        if !adds {
            all.push(*digit)?;
        } else if *digit < b'9' {
            all.push(*digit + 1)?;
            adds = false;
        } else {
            all.push(b'0')?;
        }
    }
    if adds {
        all.push(b'1')?;
    }
    Ok(all)
}

pub(crate) fn reversed(alloc: Global, digits: &[u8]) -> Result<Bytes, NoMemory>
    ensures { IfOk result (λ all. all ≡ reverse digits.now) }
{
    let mut all = Vec::from_slice(alloc, digits)?;
    all.reverse();
    Ok(List::from_vec(all))
}

fn stripped(digits: &[u8]) -> &[u8]
    ensures { result.now ≡ stripped digits.now }
{
    let mut rest = digits;
    while let [b'0', more @ ..] = rest {
        rest = more;
    }
    rest
}

/// Moves the counter behind a name that is written at a definition.
pub(crate) fn count(alloc: Global, counter: &mut Bytes, name: &[u8]) -> Result<(), NoMemory>
    ensures { IfOk result (λ _. counter.new ≡ behind_name counter.old name.now) }
{
    if is_digits(name) {
        let digits = reversed(alloc, stripped(name))?;
        *counter = next(alloc, digits.as_slice())?;
    }
    Ok(())
}

fn in_range(negative: bool, number: Option<u64>) -> bool
    ensures { result ≡ in_range negative number }
{
    match number {
        None => false,
        Some(number) => !negative || number == 0,
    }
}

/// Whether a label that spells an integer lies from 0 to 2^32 - 1.
pub(crate) fn label_fits(name: &[u8]) -> bool
    ensures { result ≡ label_fits name.now }
{
    if is_integer(name) {
        in_range(is_negative(name), decimal(u32::MAX as u64, digits_of(name)))
    } else {
        true
    }
}

/// The counter's digits spell a number: the next one is one more, and a name that spells a number is followed by one more.
#[tactic(auto, using(crate::proofs::CounterLaws::next_value, crate::proofs::CounterLaws::behind_value))]
pub fn the_counter_counts()
    ensures more { (digits : List ℕ) → list_all is_digit digits ≡ true → value (next digits) ≡ 1 + value digits }
    ensures behind { (counter name : List ℕ) → is_digits name ≡ true → value (behind_name counter name) ≡ 1 + value (reverse name) }
{}
