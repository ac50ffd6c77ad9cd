ghost use Rattle.std.specs.Prelude.{◌≡◌, ◌^◌, ◌<◌, ℕ, List, MatchBool};
ghost use Rattle.no_layout.specs.Orders.{swapped as swapped_of};
ghost use Rattle.no_layout.specs.Width.{width_of};
ghost use Rattle.no_semantics.specs.Externals.{World, Effect, are_below, bounded, chosen, do_swap, valued, with_one, with_two};
ghost use Rattle.no_eval.specs.Compare.{compare_of};
ghost use Rattle.no_lib.specs.Answers.{Means, Seen};
ghost use Rattle.no_lib.specs.Picked.{HasBits, IsPick, IsSwap, Lacks};
ghost use Rattle.no_module.specs.declared.external.External.{External as Which};

use crate::answer::LibAnswer;
use crate::arguments::{one, two};
use no_eval::compare;
use no_ir::Pred;
use no_layout::{Width, get_number, put_number};
use no_module::External;

/// `llvm.bswap`: the bytes in the other order.
#[tactic(auto, using(crate::proofs::Told::not_one_means))]
pub(crate) fn swap(width: u8, args: &[u64], left: u64) -> LibAnswer
    requires { 0 < left }
    ensures { (s : Seen) → Means (External.Swap width) (λ w. bounded left (with_one args.now (do_swap width) w) w) result s s }
{
    let Some(a) = one(args) else {
        return LibAnswer::Stuck;
    };
    match swapped(width, a) {
        Some(number) => LibAnswer::Value(number, 1),
        None => LibAnswer::Stuck,
    }
}

/// A number of 16, 32 or 64 bits with its bytes in the other order.
#[tactic(auto, using(crate::proofs::Chosen::swap_16, crate::proofs::Chosen::swap_32, crate::proofs::Chosen::swap_64, crate::proofs::Chosen::no_swap_16, crate::proofs::Chosen::no_swap_32, crate::proofs::Chosen::no_swap_width))]
fn swapped(width: u8, a: u64) -> Option<u64>
    ensures { IsSwap width a result }
{
    match width {
        16 if a < 65_536 => Some(turned(Width::Two, a)),
        32 if a < 4_294_967_296 => Some(turned(Width::Four, a)),
        64 => Some(turned(Width::Eight, a)),
        _ => None,
    }
}

/// The number with its bytes in the other order.
fn turned(width: Width, a: u64) -> u64
    requires { a < 256 ^ width_of width }
    ensures { result ≡ swapped_of (width_of width) a }
{
    let mut bytes = [0u8; 8];
    let into = &mut bytes[..width.bytes()];
    put_number(false, width, a, into);
    get_number(true, width, into)
}

/// Whether a number has w bits, where numbers of w bits may be compared.
#[tactic(auto, using(crate::proofs::Chosen::bits_8, crate::proofs::Chosen::bits_16, crate::proofs::Chosen::bits_32, crate::proofs::Chosen::bits_64, crate::proofs::Chosen::lacks_8, crate::proofs::Chosen::lacks_16, crate::proofs::Chosen::lacks_32, crate::proofs::Chosen::lacks_width))]
fn has_bits(width: u8, n: u64) -> bool
    ensures { MatchBool result (HasBits width n) (Lacks width n) }
{
    match width {
        8 => n < 256,
        16 => n < 65_536,
        32 => n < 4_294_967_296,
        64 => true,
        _ => false,
    }
}

/// The first of two numbers of w bits where a comparison holds of them, and else the second.
#[tactic(auto, using(crate::proofs::Chosen::picks_none_left, crate::proofs::Chosen::picks_none_right, crate::proofs::Chosen::picks_first, crate::proofs::Chosen::picks_second))]
fn pick(p: Pred, width: u8, a: u64, b: u64) -> Option<u64>
    ensures { IsPick p width a b result }
{
    if !has_bits(width, a) {
        return None;
    }
    if !has_bits(width, b) {
        return None;
    }
    if compare(p, width, a, b) {
        Some(a)
    } else {
        Some(b)
    }
}

/// The lower or the higher of two numbers of w bits: the first where a comparison holds of them.
#[tactic(auto, using(crate::proofs::Told::not_two_means))]
pub(crate) fn choose(p: Pred, width: u8, args: &[u64], left: u64) -> LibAnswer
    requires { 0 < left }
    ensures { (which : Which) (f : ℕ → ℕ → World → Effect) (s : Seen) → ((a b : ℕ) (w : World) → f a b w ≡ valued (are_below width a b) (chosen (compare_of p width a b) a b) w) → Means which (λ w. bounded left (with_two args.now f w) w) result s s }
{
    let Some(given) = two(args) else {
        return LibAnswer::Stuck;
    };
    match pick(p, width, given.0, given.1) {
        Some(number) => LibAnswer::Value(number, 1),
        None => LibAnswer::Stuck,
    }
}
