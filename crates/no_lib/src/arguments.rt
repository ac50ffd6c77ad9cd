ghost use Rattle.std.specs.Prelude.{◌≡◌, ℕ, [], ◌∷◌, MatchBool, MatchOption};
ghost use Rattle.no_lib.specs.Arguments.{AreNotFour, AreNotNone, AreNotOne, AreNotTwo};

/// Whether there are no arguments.
#[tactic(auto, using(crate::proofs::Counted::not_none))]
pub(crate) fn none(args: &[u64]) -> bool
    ensures { MatchBool result (args.now ≡ []) (AreNotNone args.now) }
{
    args.is_empty()
}

/// The one argument, where there is one.
#[tactic(auto, using(crate::proofs::Counted::is_one, crate::proofs::Counted::not_one))]
pub(crate) fn one(args: &[u64]) -> Option<u64>
    ensures { MatchOption result (AreNotOne args.now) (λ a. args.now ≡ a ∷ []) }
{
    if args.len() != 1 {
        return None;
    }
    Some(args[0])
}

/// The two arguments, where there are two.
#[tactic(auto, using(crate::proofs::Counted::is_two, crate::proofs::Counted::not_two))]
pub(crate) fn two(args: &[u64]) -> Option<(u64, u64)>
    ensures { MatchOption result (AreNotTwo args.now) (λ a. args.now ≡ a.0 ∷ a.1 ∷ []) }
{
    if args.len() != 2 {
        return None;
    }
    Some((args[0], args[1]))
}

/// The first three of four arguments, where there are four: the last says whether an access is volatile.
#[tactic(auto, using(crate::proofs::Counted::is_four, crate::proofs::Counted::not_four))]
pub(crate) fn four(args: &[u64]) -> Option<(u64, u64, u64)>
    ensures { MatchOption result (AreNotFour args.now) (λ a. (last : ℕ) × (args.now ≡ a.0 ∷ a.1 ∷ a.2 ∷ last ∷ [])) }
{
    if args.len() != 4 {
        return None;
    }
    Some((args[0], args[1], args[2]))
}
