ghost use Rattle.std.specs.Prelude.{◌≡◌, ◌+◌, ◌-◌, ◌≤◌, ◌++◌, ℕ, List};
ghost use Rattle.no_semantics.specs.Runs.{Whole, Runs, resumed};
ghost use Rattle.no_semantics.specs.States.{State};
ghost use Rattle.no_semantics.specs.Steps.{Steps};
ghost use Rattle.no_semantics.specs.Values.{Program};

// Laws of steps and runs, which the contracts say. The calls do nothing.

/// Steps, and further steps from what they reach, are steps.
pub fn steps_compose()
    ensures { (p : Program) (s t u : State) (bytes more : List ℕ) (count cost : ℕ) → Steps p s bytes count t → Steps p t more cost u → Steps p s (bytes ++ more) (count + cost) u }
{}

/// A run is one thing alone.
pub fn a_run_is_one()
    ensures { (p : Program) (left : ℕ) (s : State) (one other : Whole) → Runs p left s one → Runs p left s other → one ≡ other }
{}

/// A run may be parted after any of its steps: what they write and cost, and then the run from what they reach with what is left.
pub fn a_run_splits()
    ensures joined { (p : Program) (left : ℕ) (s t : State) (bytes : List ℕ) (count : ℕ) (rest : Whole) → Steps p s bytes count t → count ≤ left → Runs p (left - count) t rest → Runs p left s (resumed bytes count rest) }
    ensures parted { (p : Program) (left : ℕ) (s t : State) (bytes : List ℕ) (count : ℕ) (all : Whole) → Steps p s bytes count t → count ≤ left → Runs p left s all → (rest : Whole) × Runs p (left - count) t rest × (all ≡ resumed bytes count rest) }
{}
