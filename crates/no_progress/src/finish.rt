ghost use Rattle.std.specs.Prelude.{◌≡◌, ◌<◌, ◌≤◌, ℕ, true, List, Option};
ghost use Rattle.no_module.specs.Marks.{is_unmarked};
ghost use Rattle.no_semantics.specs.Acting.{step};
ghost use Rattle.no_semantics.specs.Rows.{Calling, Goes};
ghost use Rattle.no_semantics.specs.Runs.{IsFrom, Runs, Whole};
ghost use Rattle.no_semantics.specs.States.{State};
ghost use Rattle.no_semantics.specs.Values.{Program};
ghost use Rattle.no_progress.specs.Begin.{IsEntry};
ghost use Rattle.no_progress.specs.Proper.{IsSafe};
ghost use Rattle.no_progress.specs.Valid.{IsStateOf};

/// In a safe program of which no instruction is inserted, each step that goes on costs something and no more than is left. So a run
/// from any state of it finishes within any budget, and so does a call of any function with arguments that fit.
pub fn runs_finish()
    ensures costs { (p : Program) (safe : IsSafe p) → is_unmarked p.«module» ≡ true → (left : ℕ) (s t : State) (bytes : List ℕ) (call : Option Calling) → IsStateOf p safe s → (step p left s).next ≡ Goes bytes call t → (0 < (step p left s).cost) × ((step p left s).cost ≤ left) }
    ensures finish { (p : Program) (safe : IsSafe p) → is_unmarked p.«module» ≡ true → (left : ℕ) (s : State) → IsStateOf p safe s → (w : Whole) × Runs p left s w }
    ensures entry { (p : Program) (safe : IsSafe p) → is_unmarked p.«module» ≡ true → (k : ℕ) (arguments : List ℕ) → IsEntry p k arguments → (left : ℕ) (s : State) → IsStateOf p safe s → (w : Whole) × IsFrom p s k arguments left w }
{}
