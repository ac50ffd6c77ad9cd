ghost use Rattle.std.specs.Prelude.{◌≡◌, ◌<◌, ℕ, IfOk, Some, bytes_eq, codes, length};
ghost use Rattle.no_semantics.specs.Starts.{main_from};
ghost use Rattle.no_semantics.specs.States.{HasNoMarks};
ghost use Rattle.no_machine.specs.Booted.{IsBooted, IsMain};

use crate::machine::Machine;
use crate::state::Core;
use crate::tables::{declared_of, externals_of};
use no_code::decode;
use no_heap::Heap;
use no_ir::{Function, List, NoMemory};
use no_layout::Memory;
use no_semantics::Sound;
use no_taken::taken;
use std::alloc::Global;

/// Whether a function has the name `main`.
fn is_main(function: &Function) -> bool
    ensures { result ≡ bytes_eq function.now.name (codes "main") }
{
    function.name.as_slice() == b"main".as_slice()
}

/// The number of the first function of the name `main`.
fn main_of(functions: &[Function]) -> usize
    requires { (k : ℕ) × (main_from 0 functions.now ≡ Some k) }
    ensures { IsMain functions.now result }
{
    for (index, function) in functions.iter().enumerate() {
        if is_main(function) {
            return index;
        }
    }
    unreachable!()
}

impl<M: Memory> Machine<M> {
    /// A machine at the entry of the first function of the name `main`, with nothing counted and no live block: each
    /// parameter is 0, and the stack is empty.
    ///
    /// The addresses are those of the module's globals, in their order. It decodes the module, and takes memory for its
    /// cells, for the slots of `main`, for the heap's tables and for the tables of functions.
    pub fn boot(
        alloc: Global,
        sound: &Sound,
        addresses: List<u32>,
        mem: M,
        budget: u64,
    ) -> Result<Machine<M>, NoMemory>
        requires main { (k : ℕ) × (main_from 0 sound.now.«module».functions ≡ Some k) }
        requires marks { HasNoMarks sound.now.«module» }
        ensures booted { IfOk result (λ m. IsBooted M.byte M.held M.regions sound.now addresses mem budget m) }
    {
        let first = main_of(sound.module().functions.as_slice());
        let Ok(k) = u32::try_from(first) else {
            return Err(NoMemory);
        };
        let code = decode(
            alloc,
            sound.module(),
            sound.layout(),
            sound.sizes(),
            addresses.as_slice(),
        )?;
        let declared = declared_of(alloc, sound.module())?;
        let externals = externals_of(alloc, sound.module(), sound.role())?;
        let taken = taken(alloc, sound.module())?;
        let heap = Heap::new(alloc)?;
        let core = Core::begin(alloc, &code, k, mem, heap)?;
        Ok(Machine {
            code,
            declared,
            externals,
            taken,
            addresses,
            core,
            count: 0,
            budget,
            end: None,
        })
    }
}
