ghost use Rattle.std.specs.Prelude.{◌≡◌, ◌≢◌, ◌<◌, ℕ, List, Option, Some};
ghost use Rattle.no_semantics.specs.Acting.{step};
ghost use Rattle.no_semantics.specs.Rows.{Calling, Goes, Stuck};
ghost use Rattle.no_semantics.specs.Starts.{at_entry, start};
ghost use Rattle.no_semantics.specs.States.{State};
ghost use Rattle.no_semantics.specs.Steps.{Steps};
ghost use Rattle.no_semantics.specs.Values.{Program};
ghost use Rattle.no_progress.specs.Begin.{HasMain, IsEntry};
ghost use Rattle.no_progress.specs.Proper.{Each, IsSafe};
ghost use Rattle.no_progress.specs.Valid.{IsStateOf};

/// From a state of a safe program no step within any budget is stuck, a step that goes on leads to a state of it, and so do any
/// number of steps.
pub fn runs_never_get_stuck()
    ensures never { (p : Program) (safe : IsSafe p) (left : ℕ) (s : State) → IsStateOf p safe s → (step p left s).next ≢ Stuck }
    ensures goes { (p : Program) (safe : IsSafe p) (left : ℕ) (s t : State) (bytes : List ℕ) (call : Option Calling) → IsStateOf p safe s → (step p left s).next ≡ Goes bytes call t → IsStateOf p safe t }
    ensures stands { (p : Program) (safe : IsSafe p) (s t : State) (bytes : List ℕ) (count : ℕ) → IsStateOf p safe s → Steps p s bytes count t → IsStateOf p safe t }
{}

/// The run of a safe program begins in a state of it, and so does a call of any function with arguments that fit, in any state of it.
pub fn runs_begin_in_states()
    ensures main { (p : Program) (safe : IsSafe p) → HasMain p → (byte : ℕ → ℕ) (input : List ℕ) → Each (λ (b : ℕ). b < 256) input → (s : State) × (start p byte input ≡ Some s) × IsStateOf p safe s }
    ensures entry { (p : Program) (safe : IsSafe p) (k : ℕ) (arguments : List ℕ) → IsEntry p k arguments → (s : State) → IsStateOf p safe s → (t : State) × (at_entry p s k arguments ≡ Some t) × IsStateOf p safe t }
{}
