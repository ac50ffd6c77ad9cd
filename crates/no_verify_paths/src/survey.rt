ghost use Rattle.std.specs.Prelude.{◌≡◌, ℕ, ◌+◌, ◌<◌, ◌^◌, [], ◌∷◌, Some, IfOk, OnOk, length};
ghost use Rattle.no_verify_paths.specs.Survey.{Gathers, IsHere, IsLabels, IsNotebook, IsStep, IsThere, IsTold, at, is_some_of};

use crate::need::Need;
use crate::operands::{list_phi_uses, list_uses};
use crate::rows::{add_to_row, find, put};
use no_ir::{Function, Instr, NoMemory};
use std::alloc::Global;

/// What is noted of a function's instructions.
#[derive(Drop)]
pub(crate) struct Notebook {
    /// The needs of the registers from 64 times a row's number on.
    pub(crate) needs: Vec<Vec<Need>>,
    /// In the same rows each register that is assigned, with the block.
    pub(crate) assignments: Vec<Vec<(u32, u32)>>,
    /// For each register the block that assigned it last.
    pub(crate) marks: Vec<Option<u32>>,
}

fn add_need(alloc: Global, need: Need, needs: &mut Vec<Vec<Need>>) -> Result<(), NoMemory>
    ensures { OnOk result (Gathers (λ u. u ≡ need) needs.old.items needs.new.items) }
{
    add_to_row(alloc, needs, (need.register / 64) as usize, need)
}

/// Whether a block is the last one that assigned a register.
fn is_marked(marks: &[Option<u32>], register: u32, block: u32) -> bool
    ensures { result ≡ is_some_of (at marks.now register) block }
{
    match find(marks, register) {
        Some(last) => last == block,
        None => false,
    }
}

/// Notes a use where it stands, unless the block has assigned the register before.
fn note_use(
    alloc: Global,
    register: u32,
    marks: &[Option<u32>],
    user: (u32, u32),
    needs: &mut Vec<Vec<Need>>,
) -> Result<(), NoMemory>
    ensures { OnOk result (Gathers (IsHere (register ∷ []) marks.now user) needs.old.items needs.new.items) }
{
    if is_marked(marks, register, user.0) {
        return Ok(());
    }
    let need = Need {
        register,
        block: user.0,
        at_end: false,
        user,
    };
    add_need(alloc, need, needs)
}

fn note_uses(
    alloc: Global,
    registers: &[u32],
    marks: &[Option<u32>],
    user: (u32, u32),
    needs: &mut Vec<Vec<Need>>,
) -> Result<(), NoMemory>
    ensures { OnOk result (Gathers (IsHere registers.now marks.now user) needs.old.items needs.new.items) }
{
    for register in registers {
        note_use(alloc, *register, marks, user, needs)?;
    }
    Ok(())
}

/// Notes a use at the end of a label's block. A label that no block has leads nowhere.
fn note_end(
    alloc: Global,
    pair: &(u32, u32),
    labels: &[Option<u32>],
    user: (u32, u32),
    needs: &mut Vec<Vec<Need>>,
) -> Result<(), NoMemory>
    ensures { OnOk result (Gathers (IsThere labels.now (pair.now ∷ []) user) needs.old.items needs.new.items) }
{
    match find(labels, pair.1) {
        Some(source) => {
            let need = Need {
                register: pair.0,
                block: source,
                at_end: true,
                user,
            };
            add_need(alloc, need, needs)
        }
        None => Ok(()),
    }
}

fn note_ends(
    alloc: Global,
    pairs: &[(u32, u32)],
    labels: &[Option<u32>],
    user: (u32, u32),
    needs: &mut Vec<Vec<Need>>,
) -> Result<(), NoMemory>
    ensures { OnOk result (Gathers (IsThere labels.now pairs.now user) needs.old.items needs.new.items) }
{
    for pair in pairs {
        note_end(alloc, pair, labels, user, needs)?;
    }
    Ok(())
}

/// Notes what an instruction assigns.
fn note_result(
    alloc: Global,
    assigned: Option<u32>,
    block: u32,
    marks: &mut Vec<Option<u32>>,
    assignments: &mut Vec<Vec<(u32, u32)>>,
) -> Result<(), NoMemory>
    ensures { OnOk result (IsTold assigned block marks.old.items marks.new.items assignments.old.items assignments.new.items) }
{
    match assigned {
        Some(register) => {
            put(marks, register, block)?;
            add_to_row(
                alloc,
                assignments,
                (register / 64) as usize,
                (register, block),
            )
        }
        None => Ok(()),
    }
}

/// Notes the needs of an instruction, and what it assigns.
fn note_instr(
    alloc: Global,
    instr: &Instr,
    user: (u32, u32),
    labels: &[Option<u32>],
    book: &mut Notebook,
) -> Result<(), NoMemory>
    ensures { OnOk result (IsStep instr.now labels.now user book.old book.new) }
{
    let mut registers = Vec::new(alloc);
    list_uses(&instr.op, &mut registers)?;
    note_uses(
        alloc,
        registers.as_slice(),
        book.marks.as_slice(),
        user,
        &mut book.needs,
    )?;
    let mut pairs = Vec::new(alloc);
    list_phi_uses(&instr.op, &mut pairs)?;
    note_ends(alloc, pairs.as_slice(), labels, user, &mut book.needs)?;
    note_result(
        alloc,
        instr.result,
        user.0,
        &mut book.marks,
        &mut book.assignments,
    )
}

/// Notes the instructions of one block.
fn note_block(
    alloc: Global,
    function: &Function,
    number: u32,
    labels: &[Option<u32>],
    book: &mut Notebook,
) -> Result<(), NoMemory>
    requires block { number < length function.now.blocks }
    requires labels { IsLabels function.now labels.now }
    requires notes { IsNotebook function.now book.old number 0 }
    ensures { OnOk result (IsNotebook function.now book.new (number + 1) 0) }
{
    let code = function.blocks.as_slice()[number as usize]
        .instrs
        .as_slice();
    if code.len() > u32::MAX as usize {
        return Err(NoMemory);
    }
    for (place, instr) in code.iter().enumerate() {
        note_instr(alloc, instr, (number, place as u32), labels, book)?;
    }
    Ok(())
}

/// Notes the instructions of a function.
pub(crate) fn survey(
    alloc: Global,
    function: &Function,
    labels: &[Option<u32>],
) -> Result<Notebook, NoMemory>
    requires count { length function.now.blocks < 2 ^ 32 }
    requires labels { IsLabels function.now labels.now }
    ensures { IfOk result (λ book. IsNotebook function.now book (length function.now.blocks) 0) }
{
    let mut book = Notebook {
        needs: Vec::new(alloc),
        assignments: Vec::new(alloc),
        marks: Vec::new(alloc),
    };
    for number in 0..function.blocks.len() {
        note_block(alloc, function, number as u32, labels, &mut book)?;
    }
    Ok(book)
}
