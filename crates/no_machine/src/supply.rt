ghost use Rattle.std.specs.Prelude.{◌≡◌, ◌*◌, ℕ, List, OnErr, OnOk, false};
ghost use Rattle.no_layout.specs.Memory.{IsPage, also, written};
ghost use Rattle.no_lib.specs.declared.env.Env.{Env};
ghost use Rattle.no_semantics.specs.Accepted.{Accepted};
ghost use Rattle.no_semantics.specs.States.{State};
ghost use Rattle.no_machine.specs.Booted.{HasPage};
ghost use Rattle.no_machine.specs.Ran.{IsAt, IsMade, memory_of, program_of};

use crate::machine::Machine;
use no_ir::NoMemory;
use no_layout::Memory;

impl<M: Memory> Machine<M> {
    /// Gives the memory a page that it lacks, as one that a run wants. Nothing else changes, and where memory lacks
    /// nothing at all.
    ///
    /// The machine stands for each state for which it stood, where the bytes of the page are that state's.
    pub fn supply(&mut self, page: u32, bytes: &[u8; 4096]) -> Result<(), NoMemory>
        requires absent { M.held (memory_of self.old) page ≡ false }
        requires inside { IsPage (M.regions (memory_of self.old)) page }
        ensures bytes { OnOk result (M.byte (memory_of self.new) ≡ written (M.byte (memory_of self.old)) (4096 * page) bytes.now) }
        ensures held { OnOk result (M.held (memory_of self.new) ≡ also (M.held (memory_of self.old)) page) }
        ensures same { OnErr result (M.byte (memory_of self.new) ≡ M.byte (memory_of self.old)) }
        ensures lacks { OnErr result (M.held (memory_of self.new) ≡ M.held (memory_of self.old)) }
        ensures others { self.new ≡ record self.old { core = record self.old.core { mem = memory_of self.new } } }
        ensures regions { M.regions (memory_of self.new) ≡ M.regions (memory_of self.old) }
        ensures dirty { M.dirty (memory_of self.new) ≡ M.dirty (memory_of self.old) }
        ensures made { (a : Accepted) → IsMade a self.old → IsMade a self.new }
        ensures at { (a : Accepted) → (env : Env) → (more : List ℕ) → (s : State) → HasPage s.byte page bytes.now → IsAt M.byte M.held (program_of M.regions a self.old) self.old env more s → IsAt M.byte M.held (program_of M.regions a self.new) self.new env more s }
    {
        self.core.mem.supply(page, bytes)
    }
}
