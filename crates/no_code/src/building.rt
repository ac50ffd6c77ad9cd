ghost use Rattle.std.specs.Prelude.{◌≡◌, ◌+◌, ◌++◌, ◌∷◌, [], IfOk, IsTrue, OnOk, Some, length, slice_get, true};
ghost use Rattle.no_layout.specs.Text.{is_formed};
ghost use Rattle.no_semantics.specs.Sound.{table_holds};
ghost use Rattle.no_code.specs.Coded.{before};
ghost use Rattle.no_code.specs.Making.{AreLabels, AreStarts, PutsBlock, PutsBlocks, PutsFunction, PutsFunctions, PutsHome, PutsParameters};
ghost use Rattle.no_code.specs.Source.{source};
ghost use Rattle.no_code.specs.Whole.{IsCode};

use crate::blocks::{labels, starts};
use crate::calls::{kind, put_argument};
use crate::cells::{make_cell, put_cell};
use crate::code::{Argument, Cell, Code, Home, Place};
use crate::constant::From;
use crate::edges::Blocks;
use crate::frame::Frame;
use crate::slot::small;
use no_ir::{Block, Function, List, Module, NoMemory, Ty};
use no_layout::{Layout, Sizes};
use std::alloc::Global;

/// The parameters of a function.
fn parameters(code: &mut Code, given: &[(u32, Ty)]) -> Result<(), NoMemory>
    ensures { OnOk result (PutsParameters code.old code.new given.now) }
{
    for one in given {
        let parameter = Argument {
            slot: one.0,
            kind: kind(&one.1),
        };
        put_argument(code, parameter)?;
    }
    Ok(())
}

fn put_home(code: &mut Code, home: Home) -> Result<(), NoMemory>
    ensures { OnOk result (code.new ≡ record code.old { homes = code.old.homes ++ home ∷ [] }) }
{
    code.homes.push(home)?;
    Ok(())
}

/// The home of the next function.
fn make_home(g: &Function, base: u32, registers: u32, code: &mut Code) -> Result<(), NoMemory>
    requires { registers ≡ length g.now.registers }
    ensures { OnOk result (PutsHome g.now base code.old code.new) }
{
    let first = small(code.arguments.len())?;
    parameters(code, g.params.as_slice())?;
    let last = small(code.arguments.len())?;
    let home = Home {
        start: base,
        registers,
        result: kind(&g.result),
        from: first,
        to: last,
    };
    put_home(code, home)?;
    Ok(())
}

/// The cells of block b of function f.
fn block_cells(
    from: From,
    g: &Function,
    blocks: Blocks,
    frame: Frame,
    f: u32,
    b: u32,
    block: &Block,
    code: &mut Code,
) -> Result<(), NoMemory>
    requires formed { IsTrue (is_formed from.layout.now) }
    requires table { table_holds from.layout.now from.sizes.now 0 from.program.now.types ≡ true }
    requires labels { AreLabels g.now blocks.labels.now }
    requires starts { AreStarts g.now frame.base blocks.starts.now }
    requires registers { frame.registers ≡ length g.now.registers }
    requires label { frame.label ≡ block.now.label }
    requires cells { length code.old.cells ≡ frame.base + before g.now.blocks b }
    requires places { length code.old.places ≡ length code.old.cells }
    ensures { OnOk result (PutsBlock (source from.entry.program.now from.entry.layout.now from.entry.sizes.now from.entry.addresses.now) g.now frame f b block.now (length block.now.instrs) code.old code.new) }
{
    for k in 0..block.instrs.len() {
        let instrs = block.instrs.as_slice();
        let i = &instrs[k];
        let at = small(k)?;
        let place = Place {
            function: f,
            block: b,
            at,
            inserted: i.inserted,
        };
        make_cell(from, g, blocks, frame, code, i, place)?;
    }
    Ok(())
}

/// The cells of function f.
fn function_cells(
    from: From,
    g: &Function,
    tables: Blocks,
    base: u32,
    registers: u32,
    f: u32,
    code: &mut Code,
) -> Result<(), NoMemory>
    requires formed { IsTrue (is_formed from.layout.now) }
    requires table { table_holds from.layout.now from.sizes.now 0 from.program.now.types ≡ true }
    requires labels { AreLabels g.now tables.labels.now }
    requires starts { AreStarts g.now base tables.starts.now }
    requires registers { registers ≡ length g.now.registers }
    requires cells { length code.old.cells ≡ base }
    requires places { length code.old.places ≡ length code.old.cells }
    ensures { OnOk result (PutsBlocks (source from.entry.program.now from.entry.layout.now from.entry.sizes.now from.entry.addresses.now) g.now f base (length g.now.blocks) code.old code.new) }
{
    for b in 0..g.blocks.len() {
        let blocks = g.blocks.as_slice();
        let block = &blocks[b];
        let number = small(b)?;
        let frame = Frame {
            registers,
            base,
            label: block.label,
        };
        block_cells(from, g, tables, frame, f, number, block, code)?;
    }
    Ok(())
}

/// The home and the cells of function f.
fn function(
    alloc: Global,
    from: From,
    g: &Function,
    f: u32,
    code: &mut Code,
) -> Result<(), NoMemory>
    requires formed { IsTrue (is_formed from.layout.now) }
    requires table { table_holds from.layout.now from.sizes.now 0 from.program.now.types ≡ true }
    requires homes { length code.old.homes ≡ f }
    requires places { length code.old.places ≡ length code.old.cells }
    ensures { OnOk result (PutsFunction (source from.entry.program.now from.entry.layout.now from.entry.sizes.now from.entry.addresses.now) f g.now code.old code.new) }
{
    let base = small(code.cells.len())?;
    let registers = small(g.registers.len())?;
    let labels = labels(alloc, g)?;
    let starts = starts(alloc, g, base)?;
    make_home(g, base, registers, code)?;
    let tables = Blocks {
        labels: labels.as_slice(),
        starts: starts.as_slice(),
    };
    function_cells(from, g, tables, base, registers, f, code)?;
    Ok(())
}

/// The place of a cell that is no instruction's.
fn nowhere() -> Place {
    Place {
        function: 0,
        block: 0,
        at: 0,
        inserted: false,
    }
}

/// Code with no function: the cell that stands before them all.
fn begin(alloc: Global) -> Result<Code, NoMemory>
    ensures first { IfOk result (λ c. slice_get c.cells 0 ≡ Some Cell.Nothing) }
    ensures cells { IfOk result (λ c. length c.cells ≡ 1) }
    ensures places { IfOk result (λ c. length c.places ≡ 1) }
    ensures homes { IfOk result (λ c. length c.homes ≡ 0) }
{
    let mut cells = List::new(alloc);
    cells.push(Cell::Nothing)?;
    let mut places = List::new(alloc);
    places.push(nowhere())?;
    Ok(Code {
        cells,
        places,
        homes: List::new(alloc),
        constants: List::new(alloc),
        edges: List::new(alloc),
        moves: List::new(alloc),
        arguments: List::new(alloc),
        steps: List::new(alloc),
        cases: List::new(alloc),
    })
}

/// All functions of the module.
fn functions(alloc: Global, from: From, code: &mut Code) -> Result<(), NoMemory>
    requires formed { IsTrue (is_formed from.layout.now) }
    requires table { table_holds from.layout.now from.sizes.now 0 from.program.now.types ≡ true }
    requires none { PutsFunctions (source from.program.now from.layout.now from.sizes.now from.addresses.now) from.program.now.functions 0 code.old }
    ensures { OnOk result (PutsFunctions (source from.entry.program.now from.entry.layout.now from.entry.sizes.now from.entry.addresses.now) from.entry.program.now.functions (length from.entry.program.now.functions) code.new) }
{
    for f in 0..from.program.functions.len() {
        let all = from.program.functions.as_slice();
        let g = &all[f];
        let number = small(f)?;
        function(alloc, from, g, number, code)?;
    }
    Ok(())
}

/// Decodes a module once. It fails only where memory lacks, or a table would have `2^31` entries.
///
/// The layout is one that `Layout::read` gives, the sizes are those of the module's types under it, and the addresses are
/// those of its globals, in order.
pub fn decode(
    alloc: Global,
    program: &Module,
    layout: &Layout,
    sizes: &Sizes,
    addresses: &[u32],
) -> Result<Code, NoMemory>
    requires formed { IsTrue (is_formed layout.now) }
    requires table { table_holds layout.now sizes.now 0 program.now.types ≡ true }
    ensures { IfOk result (λ c. IsCode (source program.now layout.now sizes.now addresses.now) c) }
{
    let from = From {
        program,
        layout,
        sizes,
        addresses,
    };
    let mut code = begin(alloc)?;
    functions(alloc, from, &mut code)?;
    put_cell(&mut code, Cell::Nothing, nowhere())?;
    Ok(code)
}
