ghost use Rattle.std.specs.Prelude.{◌≡◌, IfOk};

use crate::duplicate::Duplicate;
use crate::{Bytes, Const, Instr, NoMemory, Ty};
use sqlite_items::Items as List;
use std::alloc::Global;

/// Whose module it is: the device's source, or the part of a server.
#[derive(Clone, Copy, Debug, PartialEq, Eq)]
pub enum Role {
    Source,
    Part,
}

/// A global variable or constant (LLVM Language Reference, "Global Variables").
#[derive(Debug, Drop)]
pub struct GlobalVar {
    /// The name, without its sign.
    pub name: Bytes,
    /// Whether it must not be written.
    pub constant: bool,
    pub ty: Ty,
    pub init: Const,
    /// A stated alignment in bytes, which replaces its type's.
    pub align: Option<u32>,
}

impl GlobalVar {
    /// An equal global.
    pub fn copy(&self, alloc: Global) -> Result<GlobalVar, NoMemory>
        ensures { IfOk result (λ c. c ≡ self.now) }
    {
        let name = self.name.duplicate(alloc)?;
        let ty = self.ty.duplicate(alloc)?;
        let init = self.init.duplicate(alloc)?;
        Ok(GlobalVar {
            name,
            constant: self.constant,
            ty,
            init,
            align: self.align,
        })
    }
}

impl Duplicate for GlobalVar {
    fn duplicate(&self, alloc: Global) -> Result<GlobalVar, NoMemory> {
        self.copy(alloc)
    }
}

/// A block: its label, by number, and its instructions, of which the last is the terminator.
#[derive(Debug, Drop)]
pub struct Block {
    pub label: u32,
    pub instrs: List<Instr>,
}

impl Block {
    /// An equal block.
    pub fn copy(&self, alloc: Global) -> Result<Block, NoMemory>
        ensures { IfOk result (λ c. c ≡ self.now) }
    {
        let instrs = self.instrs.duplicate(alloc)?;
        Ok(Block {
            label: self.label,
            instrs,
        })
    }
}

impl Duplicate for Block {
    fn duplicate(&self, alloc: Global) -> Result<Block, NoMemory> {
        self.copy(alloc)
    }
}

/// A function (LLVM Language Reference, "Functions"). One with no blocks is declared.
#[derive(Debug, Drop)]
pub struct Function {
    /// The name, without its sign.
    pub name: Bytes,
    pub result: Ty,
    /// Register and type of each parameter.
    pub params: List<(u32, Ty)>,
    /// Whether the attribute `"machine-bound"` pins it to the device.
    pub bound: bool,
    /// In a server's part, the address that the device has for it.
    pub device_address: Option<u32>,
    /// The names of the registers, in order of first appearance.
    pub registers: List<Bytes>,
    /// The names of the labels, in order of first appearance.
    pub labels: List<Bytes>,
    pub blocks: List<Block>,
}

impl Function {
    /// An equal function.
    pub fn copy(&self, alloc: Global) -> Result<Function, NoMemory>
        ensures { IfOk result (λ c. c ≡ self.now) }
    {
        let name = self.name.duplicate(alloc)?;
        let result = self.result.duplicate(alloc)?;
        let params = self.params.duplicate(alloc)?;
        let registers = self.registers.duplicate(alloc)?;
        let labels = self.labels.duplicate(alloc)?;
        let blocks = self.blocks.duplicate(alloc)?;
        Ok(Function {
            name,
            result,
            params,
            bound: self.bound,
            device_address: self.device_address,
            registers,
            labels,
            blocks,
        })
    }
}

impl Duplicate for Function {
    fn duplicate(&self, alloc: Global) -> Result<Function, NoMemory> {
        self.copy(alloc)
    }
}

/// A module (LLVM Language Reference, "Module Structure").
#[derive(Debug, Drop)]
pub struct Module {
    /// The data layout string.
    pub layout: Bytes,
    /// Name and type of each named type. Each refers to lower numbers alone.
    pub types: List<(Bytes, Ty)>,
    pub globals: List<GlobalVar>,
    /// The functions, defined and declared, in order.
    pub functions: List<Function>,
}

impl Module {
    /// An equal module.
    pub fn copy(&self, alloc: Global) -> Result<Module, NoMemory>
        ensures { IfOk result (λ c. c ≡ self.now) }
    {
        let layout = self.layout.duplicate(alloc)?;
        let types = self.types.duplicate(alloc)?;
        let globals = self.globals.duplicate(alloc)?;
        let functions = self.functions.duplicate(alloc)?;
        Ok(Module {
            layout,
            types,
            globals,
            functions,
        })
    }
}

impl Duplicate for Module {
    fn duplicate(&self, alloc: Global) -> Result<Module, NoMemory> {
        self.copy(alloc)
    }
}

/// A source with the part of it that a server runs.
#[derive(Debug, Drop)]
pub struct Plan {
    pub module: Module,
    /// The server's data layout string.
    pub server_layout: Bytes,
    /// Numbers of the functions that are offloaded, rising.
    pub targets: List<u32>,
    pub server: Module,
}

impl Plan {
    /// An equal plan.
    pub fn copy(&self, alloc: Global) -> Result<Plan, NoMemory>
        ensures { IfOk result (λ c. c ≡ self.now) }
    {
        let module = self.module.duplicate(alloc)?;
        let server_layout = self.server_layout.duplicate(alloc)?;
        let targets = self.targets.duplicate(alloc)?;
        let server = self.server.duplicate(alloc)?;
        Ok(Plan {
            module,
            server_layout,
            targets,
            server,
        })
    }
}

impl Duplicate for Plan {
    fn duplicate(&self, alloc: Global) -> Result<Plan, NoMemory> {
        self.copy(alloc)
    }
}
