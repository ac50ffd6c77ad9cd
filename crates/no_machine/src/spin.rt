ghost use Rattle.std.specs.Prelude.{◌≡◌, ◌⊎◌, ◌-◌, ◌<◌, ◌≤◌};
ghost use Rattle.no_semantics.specs.States.{State};
ghost use Rattle.no_machine.specs.Turning.{AreFacts, IsHere, program_with};
ghost use Rattle.no_machine.specs.Spun.{HasSpun};

use crate::facts::Facts;
use crate::frame::Saved;
use crate::step::turn;
use crate::turn::{Stop, Turn};
use no_layout::Memory;

/// Where a run stands: the cell, the base of the frame's window, and how many instructions it may still do.
#[derive(Clone, Copy)]
pub(crate) struct Stand {
    pub at: usize,
    pub base: usize,
    pub left: u64,
}

/// Does instructions until one needs something from outside, or so many were done.
#[inline(never)]
pub(crate) fn spin<M: Memory>(
    facts: Facts,
    slots: &mut [u64],
    frames: &mut Vec<Saved>,
    scratch: &mut Vec<(u32, u64)>,
    sp: &mut u32,
    mem: &mut M,
    stand: Stand,
) -> (Stop, Stand)
    requires facts { AreFacts facts.sound.now facts.addresses.now facts.code.now facts.cells.now facts.constants.now facts.declared.now facts.big facts.pointer }
    requires here { (s : State) × IsHere (program_with facts.sound.now facts.addresses.now (M.regions mem.old)) stand.at stand.base sp.old slots.old frames.old.items (M.held mem.old) (M.byte mem.old) s }
    ensures spun { (s : State) → IsHere (program_with facts.entry.sound.now facts.entry.addresses.now (M.regions mem.old)) stand.at stand.base sp.old slots.old frames.old.items (M.held mem.old) (M.byte mem.old) s → HasSpun (program_with facts.entry.sound.now facts.entry.addresses.now (M.regions mem.old)) result.0 (stand.left - result.1.left) result.1.at result.1.base sp.new slots.new frames.new.items (M.held mem.old) (M.byte mem.new) s }
    ensures left { result.1.left ≤ stand.left }
    ensures spent { result.0 ≡ Stop.Spent → result.1.left ≡ 0 }
    ensures halted { (result.0 ≡ Stop.Spent) ⊎ (0 < result.1.left) }
    ensures regions { M.regions mem.new ≡ M.regions mem.old }
    ensures held { M.held mem.new ≡ M.held mem.old }
{
    let mut at = stand.at;
    let mut base = stand.base;
    for count in 0..stand.left {
        match turn(facts, slots, frames, scratch, sp, mem, at, base) {
            Turn::On(next, there) => {
                at = next;
                base = there;
            }
            Turn::Halt(_at, _base, why) => {
                let left = stand.left - count;
                return (why, Stand { at, base, left });
            }
        }
    }
    (Stop::Spent, Stand { at, base, left: 0 })
}
