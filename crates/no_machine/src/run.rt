ghost use Rattle.std.specs.Prelude.{◌≡◌, ◌+◌, ◌-◌, ◌≤◌, ℕ, List, None};
ghost use Rattle.no_layout.specs.Memory.{IsPage};
ghost use Rattle.no_semantics.specs.Acting.{step};
ghost use Rattle.no_semantics.specs.States.{State};
ghost use Rattle.no_machine.specs.Counted.{counted};
ghost use Rattle.no_machine.specs.Ran.{HasNotMoved, HasRun, IsAt, IsMade, Stays, Takes, budget_of, count_of, end_of, left_of, memory_of, program_of};

use crate::Steps;
use crate::burst::{Burst, answer_of};
use crate::machine::{Machine, StepAnswer};
use no_layout::Memory;
use no_lib::Env;
use no_semantics::Sound;
use std::sync::ledger::Ledger;

/// How much is to be counted yet, and at least 1.
fn to_go(limit: u64, done: u64) -> u64
    ensures some { 1 ≤ result }
{
    if done < limit { limit - done } else { 1 }
}

impl<M: Memory> Machine<M> {
    /// The bursts of a machine that has not ended.
    fn go_on(&mut self, sound: &Sound, limit: u64, env: &mut Env) -> StepAnswer
        requires made { IsMade sound.now self.old }
        requires within { count_of self.old ≤ budget_of self.old }
        requires running { end_of self.old ≡ None }
        requires at { (s : State) × (more : List ℕ) × IsAt M.byte M.held (program_of M.regions sound.now self.old) self.old env.old more s }
        ensures ran { (more : List ℕ) → (s : State) → IsAt M.byte M.held (program_of M.regions sound.now self.old) self.old env.old more s → HasRun M.byte M.held (program_of M.regions sound.now self.old) limit result self.old self.new env.old env.new more s }
        ensures made { IsMade sound.now self.new }
        ensures stays { Stays M.regions M.held self.old self.new }
        ensures within { count_of self.new ≤ budget_of self.new }
        ensures later { count_of self.old ≤ count_of self.new }
    {
        let start = self.count;
        'bursts: loop {
            let most = to_go(limit, self.count - start);
            let told = self.burst(sound, most, env);
            match told {
                Burst::Stepped => {
                    if self.count - start >= limit {
                        return StepAnswer::Stepped;
                    }
                }
                Burst::Room => {
                    if !self.core.widen() {
                        return StepAnswer::NoMemory;
                    }
                }
                _ => return answer_of(told),
            }
        }
    }

    /// Takes steps until one answers something else than `Stepped`, or until at least `limit` more units are counted, and
    /// then answers `Stepped`. It takes at least one.
    ///
    /// What is said holds of every state for which the machine stands and from which no run gets stuck.
    pub fn run<L: Ledger>(
        &mut self,
        sound: &Sound,
        limit: u64,
        env: &mut Env,
        steps: &mut Steps<L>,
    ) -> StepAnswer
        requires made { IsMade sound.now self.old }
        requires within { count_of self.old ≤ budget_of self.old }
        requires at { end_of self.old ≡ None → (s : State) × (more : List ℕ) × IsAt M.byte M.held (program_of M.regions sound.now self.old) self.old env.old more s }
        ensures ran { end_of self.old ≡ None → (more : List ℕ) → (s : State) → IsAt M.byte M.held (program_of M.regions sound.now self.old) self.old env.old more s → HasRun M.byte M.held (program_of M.regions sound.now self.old) limit result self.old self.new env.old env.new more s }
        ensures over { HasNotMoved (end_of self.old) result self.old self.new env.old env.new }
        ensures stays { Stays M.regions M.held self.old self.new }
        ensures within { count_of self.new ≤ budget_of self.new }
        ensures later { count_of self.old ≤ count_of self.new }
        ensures made { IsMade sound.now self.new }
        ensures inside { (page : ℕ) → result ≡ StepAnswer.WantPage page → IsPage (M.regions (memory_of self.new)) page }
        // The counter rises by what was counted.
        ensures counts { steps.new ≡ counted sound.now.role (count_of self.new - count_of self.old) steps.old }
    {
        if let Some(end) = self.end {
            return StepAnswer::Ended(end);
        }
        let start = self.count;
        let told = self.go_on(sound, limit, env);
        let _blocks = self.core.heap.blocks();
        steps.count(sound.role(), self.count - start);
        told
    }

    /// The next instruction of a machine that has not ended.
    fn take_row(&mut self, sound: &Sound, env: &mut Env) -> StepAnswer
        requires made { IsMade sound.now self.old }
        requires within { count_of self.old ≤ budget_of self.old }
        requires running { end_of self.old ≡ None }
        requires at { (s : State) × (more : List ℕ) × IsAt M.byte M.held (program_of M.regions sound.now self.old) self.old env.old more s }
        ensures takes { (more : List ℕ) → (s : State) → IsAt M.byte M.held (program_of M.regions sound.now self.old) self.old env.old more s → Takes M.byte M.held (program_of M.regions sound.now self.old) s (step (program_of M.regions sound.now self.old) (left_of self.old) s) more result self.old self.new env.old env.new }
        ensures made { IsMade sound.now self.new }
        ensures stays { Stays M.regions M.held self.old self.new }
        ensures within { count_of self.new ≤ budget_of self.new }
        ensures later { count_of self.old ≤ count_of self.new }
        ensures same_end { env.new.ended ≡ env.old.ended }
    {
        'rows: loop {
            let told = self.burst(sound, 1, env);
            match told {
                Burst::Room => {
                    if !self.core.widen() {
                        return StepAnswer::NoMemory;
                    }
                }
                _ => return answer_of(told),
            }
        }
    }

    /// Does one instruction, and counts it, or says why not.
    ///
    /// What is said holds of every state for which the machine stands and from which no run gets stuck.
    pub fn step<L: Ledger>(
        &mut self,
        sound: &Sound,
        env: &mut Env,
        steps: &mut Steps<L>,
    ) -> StepAnswer
        requires made { IsMade sound.now self.old }
        requires within { count_of self.old ≤ budget_of self.old }
        requires at { end_of self.old ≡ None → (s : State) × (more : List ℕ) × IsAt M.byte M.held (program_of M.regions sound.now self.old) self.old env.old more s }
        ensures takes { end_of self.old ≡ None → (more : List ℕ) → (s : State) → IsAt M.byte M.held (program_of M.regions sound.now self.old) self.old env.old more s → Takes M.byte M.held (program_of M.regions sound.now self.old) s (step (program_of M.regions sound.now self.old) (left_of self.old) s) more result self.old self.new env.old env.new }
        ensures over { HasNotMoved (end_of self.old) result self.old self.new env.old env.new }
        ensures stays { Stays M.regions M.held self.old self.new }
        ensures within { count_of self.new ≤ budget_of self.new }
        ensures later { count_of self.old ≤ count_of self.new }
        ensures made { IsMade sound.now self.new }
        ensures inside { (page : ℕ) → result ≡ StepAnswer.WantPage page → IsPage (M.regions (memory_of self.new)) page }
        ensures same_end { env.new.ended ≡ env.old.ended }
        // The counter rises by what was counted.
        ensures counts { steps.new ≡ counted sound.now.role (count_of self.new - count_of self.old) steps.old }
    {
        if let Some(end) = self.end {
            return StepAnswer::Ended(end);
        }
        let start = self.count;
        let told = self.take_row(sound, env);
        let _blocks = self.core.heap.blocks();
        steps.count(sound.role(), self.count - start);
        told
    }
}
