ghost use Rattle.std.specs.Prelude.{◌<◌, ◌≤◌, ◌≡◌, ◌+◌, ◌^◌, ℕ, List, false, length};
ghost use Rattle.no_heap.specs.declared.block.Block.{Block};
ghost use Rattle.no_layout.specs.Memory.{AreFormed, access};
ghost use Rattle.no_layout.specs.declared.memory.Access.TheVariants.{Done};
ghost use Rattle.no_semantics.specs.Externals.{bounded, do_puts, room_of, up_to as up_to_of, with_one};
ghost use Rattle.no_lib.specs.Answers.{Means, seen};
ghost use Rattle.no_lib.specs.Text.{IsSpelled, IsText};

use crate::answer::LibAnswer;
use crate::arguments::one;
use crate::env::Env;
use no_ir::Trap;
use no_layout::{
    Access, CONSTANTS_START, HEAP_END, HEAP_START, Memory, Regions, STACK_END, STACK_START,
};
use no_module::External;
use std::alloc::Global;

/// What reading a text found.
#[derive(Drop)]
enum Text {
    /// The bytes in front of the first 0.
    Whole(Vec<u8>),
    /// No 0 in the room that there was.
    Endless,
    /// The first page that is absent.
    Missing(u32),
    NoMemory,
}

/// `puts`: writes the bytes up to the first 0, and a line feed. A text that its region cuts off is a trap.
#[tactic(auto, using(crate::proofs::Told::not_one_means))]
pub(crate) fn puts<M: Memory>(args: &[u64], left: u64, mem: &M, env: &mut Env) -> LibAnswer
    requires { 0 < left }
    ensures means { (heap : List Block) → Means External.Puts (λ w. bounded left (with_one args.now (do_puts (M.regions mem.now)) w) w) result (seen (M.regions mem.now) (M.held mem.now) (M.own mem.now) (M.byte mem.now) heap env.old) (seen (M.regions mem.now) (M.held mem.now) (M.own mem.now) (M.byte mem.now) heap env.new) }
{
    let Some(at) = one(args) else {
        return LibAnswer::Stuck;
    };
    let room = room(mem.regions(), at);
    match read_text(mem, at, room, *env.output.allocator()) {
        Text::Missing(page) => LibAnswer::WantPage(page),
        Text::NoMemory => LibAnswer::NoMemory,
        Text::Endless => LibAnswer::Trapped(Trap::BadAddress),
        Text::Whole(text) => write_text(text, left, &mut env.output),
    }
}

/// Writes a text and a line feed, where that costs no more than is left.
fn write_text(mut text: Vec<u8>, left: u64, output: &mut Vec<u8>) -> LibAnswer
    ensures { IsSpelled result text.items left output.old.items output.new.items }
{
    let cost = 1 + text.len() as u64 / 64;
    if cost > left {
        return LibAnswer::Over;
    }
    if text.push(b'\n').is_err() {
        return LibAnswer::NoMemory;
    }
    match output.extend_from_slice(&text) {
        Ok(()) => LibAnswer::Value(0, cost),
        Err(_error) => LibAnswer::NoMemory,
    }
}

/// How many bytes stand from an address to the end of its region, and 0 where it is in none.
fn room(regions: Regions, at: u64) -> u64
    requires { AreFormed regions }
    ensures value { result ≡ room_of regions at }
    ensures ends { at + result < 2 ^ 64 }
{
    let stack = up_to(STACK_START, STACK_END, at, 0);
    let heap = up_to(HEAP_START, HEAP_END, at, stack);
    let globals = up_to(regions.globals_start(), regions.globals_end, at, heap);
    up_to(CONSTANTS_START, regions.constants_end, at, globals)
}

/// The same of one region, where what holds outside it is known.
#[tactic(auto, using(crate::proofs::Spelled::up_in, crate::proofs::Spelled::up_under, crate::proofs::Spelled::up_over))]
fn up_to(low: u32, high: u32, at: u64, other: u64) -> u64
    requires { at + other < 2 ^ 64 }
    ensures value { result ≡ up_to_of low high at other }
    ensures ends { at + result < 2 ^ 64 }
{
    if at < low as u64 {
        return other;
    }
    if high as u64 <= at {
        return other;
    }
    high as u64 - at
}

/// Reads up to the first 0, through so many bytes at most.
fn read_text<M: Memory>(mem: &M, at: u64, room: u64, alloc: Global) -> Text
    requires { at + room < 2 ^ 64 }
    ensures { IsText result (M.held mem.now) (M.byte mem.now) at room }
{
    let mut text = Vec::new(alloc);
    while (text.len() as u64) < room {
        let here = at + text.len() as u64;
        match mem.ready(here, 1, false) {
            Access::Missing(page) => return Text::Missing(page),
            // It never comes: all of the room lies in one region.
            Access::Refused(_trap) => return Text::NoMemory,
            Access::Done => {}
        }
        let byte = byte_at(mem, here);
        if byte == 0 {
            return Text::Whole(text);
        }
        let Ok(_done) = text.push(byte) else {
            return Text::NoMemory;
        };
    }
    Text::Endless
}

/// The byte at an address, which may be read and is there.
#[tactic(auto, using(crate::proofs::Copied::got_done))]
fn byte_at<M: Memory>(mem: &M, at: u64) -> u8
    requires { access (M.regions mem.now) (M.held mem.now) false at 1 ≡ Done }
    ensures { result ≡ M.byte mem.now at }
{
    let mut one = [0u8; 1];
    let _got = mem.get(at, &mut one);
    one[0]
}
