ghost use Rattle.std.specs.Prelude.{◌≡◌, ◌<◌, ℕ, List};
ghost use Rattle.no_ir.specs.declared.function.Module.{Module};
ghost use Rattle.no_ir.specs.declared.function.Role.TheVariants.{Source};
ghost use Rattle.no_room.specs.Accepted.{Accepted};
ghost use Rattle.no_verify.specs.Verdict.{IsAccepted};
ghost use Rattle.no_semantics.specs.First.{program_of};
ghost use Rattle.no_semantics.specs.Runs.{IsRun, Ran};
ghost use Rattle.no_progress.specs.Begin.{HasMain};
ghost use Rattle.no_progress.specs.Proper.{Each, IsSafe};

/// What the verifier accepts as a source is safe to run, and has a `main` to begin with.
pub fn accepted_sources_are_safe()
    ensures safe { (m : Module) (a : Accepted) → IsAccepted m Source a → IsSafe (program_of a) }
    ensures main { (m : Module) (a : Accepted) → IsAccepted m Source a → HasMain (program_of a) }
{}

/// The run of such a source on any bytes of input ends within any budget: by a return of `main` or by `exit`, by a trap, or
/// because the budget is used up.
pub fn accepted_sources_finish()
    ensures { (m : Module) (a : Accepted) → IsAccepted m Source a → (input : List ℕ) → Each (λ (b : ℕ). b < 256) input → (budget : ℕ) → (r : Ran) × IsRun a input budget r }
{}
