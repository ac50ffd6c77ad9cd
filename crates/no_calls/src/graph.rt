ghost use Rattle.std.specs.Prelude.{◌≡◌, ℕ, ◌<◌, ◌^◌, List, IfOk, length};
ghost use Rattle.no_ir.specs.declared.function.Module.{Module as Program};
ghost use Rattle.no_calls.specs.Calling.{MayCall};
ghost use Rattle.no_calls.specs.Links.{Calls, IsGraphOf};
ghost use Rattle.no_calls.specs.Reaching.{IsReached, IsReaching, IsShortest};

use crate::nearest::nearest_all;
use crate::reached::{listed, walk};
use crate::rows::reversed;
use crate::sets::{all_called, all_shapes, all_within};
use crate::spread::spread;
use no_ir::{List, Module, NoMemory};
use no_taken::taken;
use std::alloc::Global;
use std::marker::Model;

const MOST_FUNCTIONS: usize = 1 << 31;

/// Which functions of a module may call which.
///
/// A call leads to a set of functions: one by a bare name to that function alone, one through a pointer to all functions of its
/// type whose address is taken. So the graph is as large as the module, however many functions a call may lead to.
#[derive(Drop)]
pub struct Graph {
    alloc: Global,
    /// The sets that each function calls.
    pub(crate) uses: Vec<Vec<u32>>,
    /// The functions that call each set.
    pub(crate) users: Vec<Vec<u32>>,
    /// The sets that each function is in.
    pub(crate) within: Vec<Vec<u32>>,
    /// The functions in each set.
    pub(crate) members: Vec<Vec<u32>>,
}

impl Model for Graph {
    ghost use Rattle.std.specs.Prelude.{◌≡◌, ◌<◌, ◌^◌, vec_len};
    ghost use Rattle.no_calls.specs.Links.{Links};
    ghost use Rattle.no_calls.specs.Rows.{AreBelow, IsReverse};

    ghost Value = { Links };

    ghost view = { λ g. record { uses = g.uses.items; within = g.within.items } };

    ghost invariant = { λ g. record {
      short : vec_len g.uses < 2 ^ 32;
      functions : vec_len g.within ≡ vec_len g.uses;
      sets : vec_len g.members ≡ vec_len g.users;
      uses : AreBelow g.uses.items (vec_len g.users);
      users : AreBelow g.users.items (vec_len g.uses);
      within : AreBelow g.within.items (vec_len g.users);
      members : AreBelow g.members.items (vec_len g.uses);
      turned : IsReverse g.uses.items g.users.items;
      filled : IsReverse g.within.items g.members.items;
    } };
}

impl Graph {
    /// The graph of a module. It is a source: what may be called through a pointer is what has its address taken.
    ///
    /// `NoMemory` says that memory was not there, or that the module has 2^31 functions or more.
    pub fn of(alloc: Global, program: &Module) -> Result<Graph, NoMemory>
        ensures { IfOk result (IsGraphOf program.now) }
    {
        let functions = program.functions.as_slice();
        if functions.len() >= MOST_FUNCTIONS {
            return Err(NoMemory);
        }
        let flags = taken(alloc, program)?;
        let shapes = all_shapes(alloc, functions, flags.as_slice())?;
        let within = all_within(alloc, functions, flags.as_slice(), &shapes)?;
        let uses = all_called(alloc, functions, &shapes)?;
        let count = functions.len() + shapes.len();
        let members = reversed(alloc, within.as_slice(), count)?;
        let users = reversed(alloc, uses.as_slice(), count)?;
        Ok(Graph {
            alloc,
            uses,
            users,
            within,
            members,
        })
    }

    /// How many functions the module has.
    pub fn len(&self) -> usize
        ensures { result ≡ length self.now.uses }
    {
        self.uses.len()
    }

    /// The functions that reach one of the goals, rising; a goal reaches itself.
    pub fn reaching(&self, goals: &[u32]) -> Result<List<u32>, NoMemory>
        ensures { (m : Program) → IsGraphOf m self.now → IfOk result (IsReaching (MayCall m) goals.now (length m.functions)) }
    {
        let far = spread(
            self.alloc,
            self.within.as_slice(),
            self.users.as_slice(),
            goals,
        )?;
        let all = listed(self.alloc, far.as_slice())?;
        Ok(all)
    }

    /// The functions that a function reaches, rising: itself, those that it may call, and all that these reach.
    pub fn reaches(&self, f: u32) -> Result<List<u32>, NoMemory>
        requires { f < length self.now.uses }
        ensures { (m : Program) → IsGraphOf m self.now → IfOk result (λ all. IsReached (MayCall m) f all) }
    {
        let far = spread(
            self.alloc,
            self.uses.as_slice(),
            self.members.as_slice(),
            &[f],
        )?;
        let all = listed(self.alloc, far.as_slice())?;
        Ok(all)
    }

    /// The shortest path from a function to one of the goals, the function itself first; of equally short ones the first in the
    /// order of lists of numbers. None where no goal is reached.
    pub fn path(&self, f: u32, goals: &[u32]) -> Result<Option<List<u32>>, NoMemory>
        requires { f < length self.now.uses }
        ensures { (m : Program) → IsGraphOf m self.now → IfOk result (IsShortest (MayCall m) goals.now f) }
    {
        let far = spread(
            self.alloc,
            self.within.as_slice(),
            self.users.as_slice(),
            goals,
        )?;
        match far[f as usize] {
            None => Ok(None),
            Some(distance) => {
                let near = nearest_all(self.alloc, self.members.as_slice(), far.as_slice())?;
                let way = walk(
                    self.alloc,
                    self.uses.as_slice(),
                    near.as_slice(),
                    f,
                    distance,
                )?;
                Ok(Some(way))
            }
        }
    }
}
