ghost use Rattle.std.specs.Prelude.{◌≡◌, ◌+◌, ◌++◌, ◌∷◌, [], ℕ, IfOk, List, Option, Some, false, length, replicate, slice_get, true};
ghost use Rattle.no_machine.specs.Watching.{spans_of};
ghost use Rattle.no_semantics.specs.Acting.{row};
ghost use Rattle.no_semantics.specs.Rows.{Calling};
ghost use Rattle.no_semantics.specs.Spans.{span_of};
ghost use Rattle.no_semantics.specs.States.{State};
ghost use Rattle.no_semantics.specs.Values.{Program};
ghost use Rattle.no_profile_run.specs.Moments.{Moment, moment_of, open_in, pages_of};
ghost use Rattle.no_profile_run.specs.Profiled.{Entry, entries_of, is_among};
ghost use Rattle.no_profile_run.specs.Tallied.{AreClosed, HasDepth, HasPassed, Holds, Tallied, among, begun, bumped, called_in, nothing, touched, touched_all};

use no_ir::NoMemory;
use no_machine::{Place, Touch};
use std::alloc::Global;

/// How many pages a memory has.
const PAGES: usize = 131_328;

/// What is counted of a function.
#[derive(Clone, Copy, Debug)]
pub(crate) struct Counter {
    /// How many calls of it are open.
    pub depth: u64,
    /// How many outermost calls of it have begun.
    pub calls: u64,
    /// What was counted inside those that are closed.
    pub steps: u64,
    /// How many different pages each of these touched, in all.
    pub pages: u64,
}

/// An outermost call that is open.
#[derive(Clone, Copy, Debug)]
pub(crate) struct Open {
    pub function: u32,
    /// What was counted before it began.
    pub since: u64,
    /// Which of all outermost calls it is, from 1 on.
    pub time: u64,
    /// How many different pages were touched inside.
    pub pages: u64,
}

/// What is counted of each function in a run.
///
/// Each page has a stamp: how many outermost calls had begun when it was touched last. So a page was touched inside an open
/// call if its stamp is not below the call's time.
#[derive(Drop)]
pub struct Tally {
    pub(crate) counters: Vec<Counter>,
    /// The oldest first.
    pub(crate) live: Vec<Open>,
    pub(crate) stamps: Vec<u64>,
    /// How many outermost calls have begun.
    pub(crate) time: u64,
}

/// Counts a page in an open call that has not touched it since it began, where the page had this stamp.
fn bump_one(o: &mut Open, stamp: u64) -> bool
    ensures { result ≡ true → o.new ≡ bumped stamp o.old }
{
    if stamp < o.time {
        let Some(pages) = o.pages.checked_add(1) else {
            return false;
        };
        o.pages = pages;
    }
    true
}

/// The same in each.
fn bump(live: &mut Vec<Open>, stamp: u64) -> bool
    ensures bumped { result ≡ true → (k : ℕ) → (o : Open) → slice_get live.old.items k ≡ Some o → slice_get live.new.items k ≡ Some (bumped stamp o) }
    ensures long { length live.new.items ≡ length live.old.items }
{
    for k in 0..live.len() {
        if !bump_one(&mut live[k], stamp) {
            return false;
        }
    }
    true
}

/// As many stamps of 0.
fn zeros(alloc: Global, count: usize) -> Result<Vec<u64>, NoMemory>
    ensures { IfOk result (λ v. v.items ≡ replicate count 0) }
{
    let mut stamps = Vec::new(alloc);
    for _ in 0..count {
        stamps.push(0)?;
    }
    Ok(stamps)
}

/// As many counters of nothing.
fn counters_of(alloc: Global, count: usize) -> Result<Vec<Counter>, NoMemory>
    ensures { IfOk result (λ v. v.items ≡ replicate count nothing) }
{
    let mut counters = Vec::new(alloc);
    for _ in 0..count {
        counters.push(Counter {
            depth: 0,
            calls: 0,
            steps: 0,
            pages: 0,
        })?;
    }
    Ok(counters)
}

impl Tally {
    /// Of so many functions, none of which was called.
    pub fn new(alloc: Global, functions: usize) -> Result<Tally, NoMemory>
        ensures { IfOk result (λ t. Tallied [] t (λ f. []) 0) }
    {
        let counters = counters_of(alloc, functions)?;
        let stamps = zeros(alloc, PAGES)?;
        Ok(Tally {
            counters,
            live: Vec::new(alloc),
            stamps,
            time: 0,
        })
    }

    /// Tells that a page is touched. Whether it could be counted: there is a stamp for each page of a memory.
    fn touch(&mut self, page: u64) -> bool
        ensures holds { result ≡ true → (fs : List ℕ) → (entries : ℕ → List Entry) → (count : ℕ) → Holds fs self.old entries count → Holds fs self.new (among fs (touched page) entries) count }
        ensures counters { self.new.counters ≡ self.old.counters }
    {
        let index = page as usize;
        if index >= self.stamps.len() {
            return false;
        }
        let stamp = self.stamps[index];
        if !bump(&mut self.live, stamp) {
            return false;
        }
        self.stamps[index] = self.time;
        true
    }

    /// Tells that so many bytes from an address on are touched. Whether that could be counted.
    fn touch_bytes(&mut self, at: u64, len: u64) -> bool
        ensures holds { result ≡ true → (fs : List ℕ) → (entries : ℕ → List Entry) → (count : ℕ) → Holds fs self.old entries count → Holds fs self.new (among fs (touched_all (pages_of (span_of at len))) entries) count }
        ensures counters { self.new.counters ≡ self.old.counters }
    {
        if len == 0 {
            return true;
        }
        let Some(end) = at.checked_add(len) else {
            return false;
        };
        let first = at / 4096;
        let past = (end - 1) / 4096 + 1;
        for page in first..past {
            if !self.touch(page) {
                return false;
            }
        }
        true
    }

    /// Begins an outermost call of a function, of which none is open. Whether it could be counted.
    fn begin(&mut self, f: u32, count: u64) -> bool
        ensures holds { result ≡ true → (fs : List ℕ) → (entries : ℕ → List Entry) → is_among f fs ≡ false → Holds fs self.old entries count → Holds (fs ++ f ∷ []) self.new (begun f entries) count }
        ensures depths { result ≡ true → (k : ℕ) → (c : Counter) → slice_get self.new.counters.items k ≡ Some c → (d : Counter) × (slice_get self.old.counters.items k ≡ Some d) × (c.depth ≡ d.depth) }
    {
        let k = f as usize;
        if k >= self.counters.len() {
            return false;
        }
        let c = self.counters[k];
        let Some(calls) = c.calls.checked_add(1) else {
            return false;
        };
        let Some(time) = self.time.checked_add(1) else {
            return false;
        };
        let call = Open {
            function: f,
            since: count,
            time,
            pages: 0,
        };
        if self.live.push(call).is_err() {
            return false;
        }
        self.counters[k] = Counter {
            depth: c.depth,
            calls,
            steps: c.steps,
            pages: c.pages,
        };
        self.time = time;
        true
    }

    /// Ends the newest outermost call. Whether it could be counted.
    fn close(&mut self, count: u64) -> bool
        ensures holds { result ≡ true → (fs : List ℕ) → (f : ℕ) → (entries : ℕ → List Entry) → is_among f fs ≡ false → Holds (fs ++ f ∷ []) self.old entries count → Holds fs self.new entries count }
        ensures depths { result ≡ true → (k : ℕ) → (c : Counter) → slice_get self.new.counters.items k ≡ Some c → (d : Counter) × (slice_get self.old.counters.items k ≡ Some d) × (c.depth ≡ d.depth) }
        ensures fewer { result ≡ true → length self.new.live.items + 1 ≡ length self.old.live.items }
    {
        let Some(call) = self.live.pop() else {
            return false;
        };
        let k = call.function as usize;
        if k >= self.counters.len() {
            return false;
        }
        let c = self.counters[k];
        let Some(spent) = count.checked_sub(call.since) else {
            return false;
        };
        let Some(steps) = c.steps.checked_add(spent) else {
            return false;
        };
        let Some(pages) = c.pages.checked_add(call.pages) else {
            return false;
        };
        self.counters[k] = Counter {
            depth: c.depth,
            calls: c.calls,
            steps,
            pages,
        };
        true
    }

    /// Sets how many calls of a function are open.
    fn set_depth(&mut self, f: u32, depth: u64) -> bool
        ensures holds { result ≡ true → (fs : List ℕ) → (entries : ℕ → List Entry) → (count : ℕ) → Holds fs self.old entries count → Holds fs self.new entries count }
        ensures depths { result ≡ true → HasDepth f depth self.old.counters.items self.new.counters.items }
    {
        let k = f as usize;
        if k >= self.counters.len() {
            return false;
        }
        let c = self.counters[k];
        self.counters[k] = Counter {
            depth,
            calls: c.calls,
            steps: c.steps,
            pages: c.pages,
        };
        true
    }

    /// Tells that a function is called, behind so much that was counted. Whether that could be counted.
    fn call(&mut self, f: u32, count: u64) -> bool
        ensures { result ≡ true → (inside : List ℕ) → (entries : ℕ → List Entry) → Tallied inside self.old entries count → Tallied (f ∷ inside) self.new (called_in inside f entries) count }
    {
        let k = f as usize;
        if k >= self.counters.len() {
            return false;
        }
        let c = self.counters[k];
        let Some(depth) = c.depth.checked_add(1) else {
            return false;
        };
        if c.depth > 0 {
            return self.set_depth(f, depth);
        }
        if !self.begin(f, count) {
            return false;
        }
        self.set_depth(f, depth)
    }

    /// Tells that the newest call, which is one of this function, has returned. Whether that could be counted.
    fn back(&mut self, f: u32, count: u64) -> bool
        ensures { result ≡ true → (inside : List ℕ) → (entries : ℕ → List Entry) → Tallied (f ∷ inside) self.old entries count → Tallied inside self.new entries count }
    {
        let k = f as usize;
        if k >= self.counters.len() {
            return false;
        }
        let c = self.counters[k];
        let Some(depth) = c.depth.checked_sub(1) else {
            return false;
        };
        if !self.set_depth(f, depth) {
            return false;
        }
        if depth > 0 {
            return true;
        }
        self.close(count)
    }

    /// Tells what a row touches that writes so many bytes to the output. Whether that could be counted.
    fn touch_as(&mut self, touch: Touch, wrote: u64) -> bool
        ensures holds { result ≡ true → (fs : List ℕ) → (entries : ℕ → List Entry) → (count : ℕ) → Holds fs self.old entries count → Holds fs self.new (among fs (touched_all (pages_of (spans_of touch wrote))) entries) count }
        ensures counters { self.new.counters ≡ self.old.counters }
    {
        match touch {
            Touch::Nothing => true,
            Touch::Bytes(at, len) => self.touch_bytes(at, len),
            Touch::Pair(from, to, len) => {
                if !self.touch_bytes(from, len) {
                    return false;
                }
                self.touch_bytes(to, len)
            }
            Touch::Text(at) => self.touch_bytes(at, wrote),
        }
    }

    /// Tells of a row behind which the run goes on: what it touches, how many bytes it writes to the output, where the run
    /// stands before and after it, and what was counted by then. Whether that could be counted.
    pub fn note(
        &mut self,
        touch: Touch,
        wrote: u64,
        before: Place,
        after: Place,
        count: u64,
    ) -> bool
        ensures { result ≡ true → (p : Program) → (s : State) → (bytes : List ℕ) → (call : Option Calling) → (t : State) → (rows : List Moment) → (n : ℕ) → HasPassed touch wrote before after count p s bytes call t n → Tallied (open_in s) self.old (λ f. entries_of f rows) n → Tallied (open_in t) self.new (λ f. entries_of f (moment_of s (row p s) ∷ rows)) count }
    {
        if !self.touch_as(touch, wrote) {
            return false;
        }
        if after.callers > before.callers {
            return self.call(after.function, count);
        }
        if after.callers < before.callers {
            return self.back(before.function, count);
        }
        true
    }

    /// Closes all calls that are open, at the end of a run that counted so much. Whether that could be counted.
    pub fn finish(&mut self, count: u64) -> bool
        ensures { result ≡ true → (inside : List ℕ) → (entries : ℕ → List Entry) → Tallied inside self.old entries count → AreClosed self.new entries }
    {
        'calls: while !self.live.is_empty() {
            if !self.close(count) {
                return false;
            }
        }
        true
    }
}
