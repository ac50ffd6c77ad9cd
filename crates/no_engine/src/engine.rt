use no_ir::End;
use no_lib::Env;
use no_machine::Steps;
use no_semantics::Sound;
use std::sync::ledger::Ledger;

/// What a slice of a run came to.
#[derive(Clone, Copy, Debug, PartialEq, Eq)]
pub enum Slice {
    /// At least so much was counted.
    Stepped,
    /// The program takes a byte of the input, and none is there. Give some, or end the input.
    WantInput,
    /// The run has ended so.
    Ended(End),
    NoMemory,
}

/// What runs a program within a budget, slice by slice.
///
/// Its meaning `on` says of an environment, of bytes still to come behind that one's input, of a whole input and of bytes
/// written before that one's output, that so the engine has done a first part of the run on that input and has not ended;
/// `over` says that it has ended the run on an input. `count` is what it has counted, and `budget` the most that it may.
pub trait Engine {
    ghost use Rattle.std.specs.Prelude.{◌≡◌, ◌-◌, ◌<◌, ◌≤◌, ◌++◌, ℕ, List, [], true, false};
    ghost use Rattle.no_lib.specs.declared.env.Env.{Env};
    ghost use Rattle.no_semantics.specs.Accepted.{Accepted};
    ghost use Rattle.no_machine.specs.Counted.{counted};
    ghost use Rattle.no_engine.specs.Parts.{HasWay};
    ghost use Rattle.no_engine.specs.Slices.{Came};

    ghost on: { Accepted → Self → Env → List ℕ → List ℕ → List ℕ → Type 0 };

    ghost over: { Accepted → Self → List ℕ → Type 0 };

    ghost count: { Self → ℕ };

    ghost budget: { Self → ℕ };

    /// What was counted so far.
    fn count(&self) -> u64
        ensures { result ≡ count self.now };

    /// Runs until the run ends or something is wanted, or until at least `limit` more units are counted.
    fn advance<L: Ledger>(
        &mut self,
        sound: &Sound,
        limit: u64,
        env: &mut Env,
        steps: &mut Steps<L>,
    ) -> Slice
        requires some { 0 < limit }
        requires on { (more : List ℕ) × (given : List ℕ) × (flushed : List ℕ) × on sound.now self.old env.old more given flushed }
        // Where the run is then.
        ensures came { (more given flushed : List ℕ) → on sound.now self.old env.old more given flushed → Came (on sound.now) (over sound.now) sound.now (count self.new) (budget self.new) result self.new env.new more given flushed }
        // Each slice counts something, and each that wants input counts something or had none.
        ensures steps { result ≡ Slice.Stepped → count self.old < count self.new }
        ensures wants { result ≡ Slice.WantInput → (env.new.input ≡ []) × (env.new.ended ≡ false) × (count self.new ≡ count self.old → env.old.input ≡ []) }
        ensures later { count self.old ≤ count self.new }
        ensures within { count self.new ≤ budget self.new }
        ensures same { budget self.new ≡ budget self.old }
        ensures same_end { env.new.ended ≡ env.old.ended }
        // The counter rises by what was counted.
        ensures counts { steps.new ≡ counted sound.now.role (count self.new - count self.old) steps.old };

    // What it has done is a first part of the run.
    ghost way: { (a : Accepted) (e : Self) (env : Env) (more given flushed : List ℕ) → on a e env more given flushed → HasWay a (budget e) given (flushed ++ env.output.items) (count e) };

    // It is as far in each environment of which the input is the same to the end, and the output with what was written before.
    ghost moves: { (a : Accepted) (e : Self) (env env' : Env) (more more' given flushed flushed' : List ℕ) → on a e env more given flushed → env.input ++ more ≡ env'.input ++ more' → (env'.ended ≡ true → more' ≡ []) → flushed ++ env.output.items ≡ flushed' ++ env'.output.items → on a e env' more' given flushed' };
}
