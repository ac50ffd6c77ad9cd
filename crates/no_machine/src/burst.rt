ghost use Rattle.std.specs.Prelude.{◌≡◌, ◌⊎◌, ◌+◌, ◌^◌, ◌<◌, ◌≤◌, ◌++◌, [], ℕ, List, None, length, true};
ghost use Rattle.no_semantics.specs.Acting.{row};
ghost use Rattle.no_semantics.specs.Rows.{affordable};
ghost use Rattle.no_semantics.specs.States.{State};
ghost use Rattle.no_machine.specs.Burst.{HasBurst, answer_of, cost_by, cost_of, end_by, told_by, told_of};
ghost use Rattle.no_machine.specs.Outside.{Outs, Placed};
ghost use Rattle.no_machine.specs.Ran.{IsAt, IsMade, Stays, budget_of, count_of, end_of, program_of};
ghost use Rattle.no_machine.specs.Turning.{IsCalling, IsHere};
ghost use Rattle.no_machine.specs.Spun.{HasSpun};

use crate::facts::Facts;
use crate::machine::{Machine, StepAnswer};
use crate::out::Out;
use crate::turn::Stop;
use no_ir::End;
use no_layout::Memory;
use no_lib::Env;
use no_semantics::Sound;

/// How a burst of a run went.
#[derive(Clone, Copy, Debug, PartialEq, Eq)]
pub(crate) enum Burst {
    /// Instructions were done, at least one.
    Stepped,
    /// There are too few slots for a call.
    Room,
    /// This page is absent, and it is the lowest of those that the next instruction needs.
    WantPage(u32),
    /// The next instruction takes a byte of the input, and none is there.
    WantInput,
    /// The run has ended so.
    Ended(End),
    /// The next instruction has no meaning.
    Stuck,
    NoMemory,
}

/// What is told of why no further instruction was done.
fn told_of(why: Stop) -> Burst
    ensures { result ≡ told_of why }
{
    match why {
        Stop::Trapped(trap) => Burst::Ended(End::Trapped(trap)),
        Stop::Left(Some(n)) => Burst::Ended(End::Exited((n % 256) as u8)),
        Stop::Left(None) => Burst::Stuck,
        Stop::WantPage(page) => Burst::WantPage(page),
        Stop::NoMemory => Burst::NoMemory,
        Stop::Outside => Burst::NoMemory,
        Stop::Grow => Burst::Room,
        Stop::Spent => Burst::Stepped,
    }
}

fn cost_of(why: Stop) -> u64
    ensures value { result ≡ cost_of why }
    ensures most { result ≤ 1 }
{
    match why {
        Stop::Trapped(_) | Stop::Left(Some(_)) => 1,
        _ => 0,
    }
}

/// What is told of what came of an instruction outside.
fn told_by(what: Out) -> Burst
    ensures { result ≡ told_by what }
{
    match what {
        Out::On(_, _, _) => Burst::Stepped,
        Out::Exited(status) => Burst::Ended(End::Exited(status)),
        Out::Trapped(trap) => Burst::Ended(End::Trapped(trap)),
        Out::Over => Burst::Ended(End::Unfinished),
        Out::Stuck => Burst::Stuck,
        Out::WantPage(page) => Burst::WantPage(page),
        Out::WantInput => Burst::WantInput,
        Out::Grow => Burst::Room,
        Out::NoMemory => Burst::NoMemory,
    }
}

fn cost_by(what: Out) -> u64
    ensures { result ≡ cost_by what }
{
    match what {
        Out::On(_, _, cost) => cost,
        Out::Exited(_) | Out::Trapped(_) => 1,
        _ => 0,
    }
}

/// The end of a run by an answer.
fn end_by(told: Burst) -> Option<End>
    ensures { result ≡ end_by told }
{
    match told {
        Burst::Ended(end) => Some(end),
        _ => None,
    }
}

/// What a run answers behind a burst, where it goes no further.
pub(crate) fn answer_of(told: Burst) -> StepAnswer
    ensures { result ≡ answer_of told }
{
    match told {
        Burst::Stepped => StepAnswer::Stepped,
        Burst::WantPage(page) => StepAnswer::WantPage(page),
        Burst::WantInput => StepAnswer::WantInput,
        Burst::Ended(end) => StepAnswer::Ended(end),
        Burst::Stuck => StepAnswer::Stuck,
        Burst::Room | Burst::NoMemory => StepAnswer::NoMemory,
    }
}

impl<M: Memory> Machine<M> {
    /// Does at most so many instructions, until one needs something from outside. How many were done.
    fn inside(&mut self, sound: &Sound, most: u64) -> (Stop, u64)
        requires made { IsMade sound.now self.old }
        requires within { self.old.count + most ≤ self.old.budget }
        requires here { (s : State) × IsHere (program_of M.regions sound.now self.old) self.old.core.at self.old.core.base self.old.core.sp self.old.core.slots.items self.old.core.frames.items (M.held self.old.core.mem) (M.byte self.old.core.mem) s }
        ensures spun { (s : State) → IsHere (program_of M.regions sound.now self.old) self.old.core.at self.old.core.base self.old.core.sp self.old.core.slots.items self.old.core.frames.items (M.held self.old.core.mem) (M.byte self.old.core.mem) s → HasSpun (program_of M.regions sound.now self.old) result.0 result.1 self.new.core.at self.new.core.base self.new.core.sp self.new.core.slots.items self.new.core.frames.items (M.held self.old.core.mem) (M.byte self.new.core.mem) s }
        ensures most { result.1 ≤ most }
        ensures spent { result.0 ≡ Stop.Spent → result.1 ≡ most }
        ensures halted { (result.0 ≡ Stop.Spent) ⊎ (result.1 < most) }
        ensures heap { self.new.core.heap ≡ self.old.core.heap }
        ensures regions { M.regions self.new.core.mem ≡ M.regions self.old.core.mem }
        ensures held { M.held self.new.core.mem ≡ M.held self.old.core.mem }
        ensures long { length self.new.core.slots.items ≡ length self.old.core.slots.items }
        ensures rest { self.new ≡ record self.old { core = self.new.core; count = self.old.count + result.1 } }
    {
        let layout = sound.layout();
        let code = &self.code;
        let facts = Facts {
            sound,
            addresses: self.addresses.as_slice(),
            code,
            cells: code.cells.as_slice(),
            constants: code.constants.as_slice(),
            declared: self.declared.as_slice(),
            big: layout.big,
            pointer: layout.pointer,
        };
        let (why, done) = self.core.go(facts, most);
        self.count += done;
        (why, done)
    }

    /// Does the call of the cell at which it stands, within what is left of the budget.
    fn outside(&mut self, sound: &Sound, left: u64, env: &mut Env) -> Out
        requires made { IsMade sound.now self.old }
        requires some { 0 < left }
        requires here { (s : State) × IsHere (program_of M.regions sound.now self.old) self.old.core.at self.old.core.base self.old.core.sp self.old.core.slots.items self.old.core.frames.items (M.held self.old.core.mem) (M.byte self.old.core.mem) s × IsCalling (program_of M.regions sound.now self.old) s }
        ensures outs { (s : State) → (more : List ℕ) → IsHere (program_of M.regions sound.now self.old) self.old.core.at self.old.core.base self.old.core.sp self.old.core.slots.items self.old.core.frames.items (M.held self.old.core.mem) (M.byte self.old.core.mem) s → s.heap ≡ self.old.core.heap → s.input ≡ env.old.input ++ more → (env.old.ended ≡ true → more ≡ []) → Outs (program_of M.regions sound.now self.old) result self.old.core.at self.old.core.base self.new.core.sp self.new.core.slots.items self.new.core.frames.items (record { held = M.held self.old.core.mem; byte = M.byte self.old.core.mem; after = M.byte self.new.core.mem; heap = self.old.core.heap; heap_after = self.new.core.heap; env = env.old; env_after = env.new }) more s (affordable left (row (program_of M.regions sound.now self.old) s)) }
        ensures placed { Placed result self.old.core.at self.old.core.base self.new.core.at self.new.core.base }
        ensures regions { M.regions self.new.core.mem ≡ M.regions self.old.core.mem }
        ensures held { M.held self.new.core.mem ≡ M.held self.old.core.mem }
        ensures ended { env.new.ended ≡ env.old.ended }
        ensures long { length self.new.core.slots.items ≡ length self.old.core.slots.items }
        ensures rest { self.new ≡ record self.old { core = self.new.core } }
    {
        let layout = sound.layout();
        let code = &self.code;
        let facts = Facts {
            sound,
            addresses: self.addresses.as_slice(),
            code,
            cells: code.cells.as_slice(),
            constants: code.constants.as_slice(),
            declared: self.declared.as_slice(),
            big: layout.big,
            pointer: layout.pointer,
        };
        self.core.call_out(
            facts,
            self.externals.as_slice(),
            self.taken.as_slice(),
            left,
            env,
        )
    }

    /// Counts, and ends the run where it is told that it has ended.
    fn close(&mut self, told: Burst, cost: u64) -> Burst
        requires { self.old.count + cost < 2 ^ 64 }
        ensures closed { self.new ≡ record self.old { count = self.old.count + cost; end = end_by told } }
        ensures told { result ≡ told }
    {
        self.count += cost;
        self.end = end_by(told);
        told
    }

    /// Does instructions until one needs something from outside, but no more than so many, and then, where that is a call, the
    /// call.
    ///
    /// What is said holds of every state for which the machine stands and from which no run gets stuck.
    pub(crate) fn burst(&mut self, sound: &Sound, most: u64, env: &mut Env) -> Burst
        requires made { IsMade sound.now self.old }
        requires within { count_of self.old ≤ budget_of self.old }
        requires running { end_of self.old ≡ None }
        requires some { 0 < most }
        requires at { (s : State) × (more : List ℕ) × IsAt M.byte M.held (program_of M.regions sound.now self.old) self.old env.old more s }
        ensures burst { (more : List ℕ) → (s : State) → IsAt M.byte M.held (program_of M.regions sound.now self.old) self.old env.old more s → HasBurst M.byte M.held (program_of M.regions sound.now self.old) most result self.old self.new env.old env.new more s }
        ensures made { IsMade sound.now self.new }
        ensures stays { Stays M.regions M.held self.old self.new }
        ensures ended { env.new.ended ≡ env.old.ended }
        ensures long { length self.new.core.slots.items ≡ length self.old.core.slots.items }
    {
        let left = self.budget - self.count;
        if left == 0 {
            return self.close(Burst::Ended(End::Unfinished), 0);
        }
        let most = lesser(most, left);
        let (why, done) = self.inside(sound, most);
        match why {
            Stop::Outside => {
                let what = self.outside(sound, left - done, env);
                self.close(told_by(what), cost_by(what))
            }
            _ => self.close(told_of(why), cost_of(why)),
        }
    }
}

/// The lesser of two numbers.
fn lesser(a: u64, b: u64) -> u64
    ensures low { result ≤ a }
    ensures high { result ≤ b }
    ensures one { (result ≡ a) ⊎ (result ≡ b) }
{
    if a < b { a } else { b }
}
