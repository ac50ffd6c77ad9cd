ghost use Rattle.std.specs.Prelude.{◌<◌, ◌≤◌, ◌≡◌, ◌+◌, ◌^◌, ℕ, List, min, true, false, length, OnOk, OnErr};
ghost use Rattle.no_heap.specs.declared.block.Block.{Block};
ghost use Rattle.no_layout.specs.Memory.{AreOwn, access, read_bytes, written};
ghost use Rattle.no_layout.specs.declared.memory.Access.TheVariants.{Done};
ghost use Rattle.no_semantics.specs.Externals.{bounded, do_move, with_four};
ghost use Rattle.no_lib.specs.declared.env.Env.{Env as Stream};
ghost use Rattle.no_lib.specs.Answers.{Means, seen};
ghost use Rattle.no_lib.specs.Judged.{judged as judged_of};

use crate::answer::LibAnswer;
use crate::arguments::four;
use no_ir::NoMemory;
use no_layout::{Access, Memory, Stored, prepare_all};
use no_module::External;

/// How many bytes are copied at once.
const PIECE: usize = 256;

/// `llvm.memcpy` and `llvm.memmove`: bytes are copied as if through a buffer.
pub(crate) fn transfer<M: Memory>(args: &[u64], left: u64, mem: &mut M) -> LibAnswer
    requires { 0 < left }
    ensures means { (heap : List Block) (env : Stream) → Means External.Move (λ w. bounded left (with_four args.now (do_move (M.regions mem.old)) w) w) result (seen (M.regions mem.old) (M.held mem.old) (M.own mem.old) (M.byte mem.old) heap env) (seen (M.regions mem.new) (M.held mem.new) (M.own mem.new) (M.byte mem.new) heap env) }
{
    let Some(given) = four(args) else {
        return LibAnswer::Stuck;
    };
    let (to, from, n) = given;
    if n == 0 {
        return LibAnswer::Nothing(1);
    }
    let cost = 1 + n / 64;
    let source = mem.ready(from, n, false);
    let target = mem.ready(to, n, true);
    if let Some(answer) = judged(source, target, left < cost) {
        return answer;
    }
    match copy(mem, to, from, n) {
        Ok(()) => LibAnswer::Nothing(cost),
        Err(_error) => LibAnswer::NoMemory,
    }
}

/// What a copy answers before it is done.
fn judged(source: Access, target: Access, dear: bool) -> Option<LibAnswer>
    ensures { result ≡ judged_of source target dear }
{
    match source {
        Access::Refused(trap) => Some(LibAnswer::Trapped(trap)),
        Access::Missing(page) => match target {
            Access::Refused(trap) => Some(LibAnswer::Trapped(trap)),
            Access::Missing(_) | Access::Done if dear => Some(LibAnswer::Over),
            Access::Missing(other) => Some(LibAnswer::WantPage(lower(page, other))),
            Access::Done => Some(LibAnswer::WantPage(page)),
        },
        Access::Done => match target {
            Access::Refused(trap) => Some(LibAnswer::Trapped(trap)),
            Access::Missing(_) | Access::Done if dear => Some(LibAnswer::Over),
            Access::Missing(other) => Some(LibAnswer::WantPage(other)),
            Access::Done => None,
        },
    }
}

/// The lower of two numbers.
fn lower(a: u32, b: u32) -> u32
    ensures { result ≡ min a b }
{
    if a < b { a } else { b }
}

/// Copies bytes, once all pages that are written have bytes of their own: so nothing is copied where memory is wanting.
#[tactic(auto)]
fn copy<M: Memory>(mem: &mut M, to: u64, from: u64, n: u64) -> Result<(), NoMemory>
    requires some { 0 < n }
    requires source { access (M.regions mem.old) (M.held mem.old) false from n ≡ Done }
    requires target { access (M.regions mem.old) (M.held mem.old) true to n ≡ Done }
    ensures bytes { OnOk result (M.byte mem.new ≡ written (M.byte mem.old) to (read_bytes (M.byte mem.old) from n)) }
    ensures same { OnErr result (M.byte mem.new ≡ M.byte mem.old) }
    ensures kept { (p : ℕ) → M.own mem.old p ≡ true → M.own mem.new p ≡ true }
    ensures regions { M.regions mem.new ≡ M.regions mem.old }
    ensures held { M.held mem.new ≡ M.held mem.old }
{
    let _regions = mem.regions();
    prepare_all(mem, to, n)?;
    if to <= from {
        copy_up(mem, to, from, n);
    } else {
        copy_down(mem, to, from, n);
    }
    Ok(())
}

/// Copies bytes from below.
fn copy_up<M: Memory>(mem: &mut M, to: u64, from: u64, n: u64)
    requires some { 0 < n }
    requires order { to ≤ from }
    requires most { from + n < 2 ^ 32 }
    requires source { access (M.regions mem.old) (M.held mem.old) false from n ≡ Done }
    requires target { access (M.regions mem.old) (M.held mem.old) true to n ≡ Done }
    requires own { AreOwn (M.own mem.old) to n }
    ensures bytes { M.byte mem.new ≡ written (M.byte mem.old) to (read_bytes (M.byte mem.old) from n) }
    ensures kept { (p : ℕ) → M.own mem.old p ≡ true → M.own mem.new p ≡ true }
    ensures regions { M.regions mem.new ≡ M.regions mem.old }
    ensures held { M.held mem.new ≡ M.held mem.old }
{
    let _regions = mem.regions();
    let mut buffer = [0u8; PIECE];
    let mut done = 0u64;
    while done < n {
        let size = piece(n - done);
        copy_piece(mem, to + done, from + done, &mut buffer[..size]);
        done += size as u64;
    }
}

/// Copies bytes from above.
fn copy_down<M: Memory>(mem: &mut M, to: u64, from: u64, n: u64)
    requires some { 0 < n }
    requires order { from ≤ to }
    requires most { to + n < 2 ^ 32 }
    requires source { access (M.regions mem.old) (M.held mem.old) false from n ≡ Done }
    requires target { access (M.regions mem.old) (M.held mem.old) true to n ≡ Done }
    requires own { AreOwn (M.own mem.old) to n }
    ensures bytes { M.byte mem.new ≡ written (M.byte mem.old) to (read_bytes (M.byte mem.old) from n) }
    ensures kept { (p : ℕ) → M.own mem.old p ≡ true → M.own mem.new p ≡ true }
    ensures regions { M.regions mem.new ≡ M.regions mem.old }
    ensures held { M.held mem.new ≡ M.held mem.old }
{
    let _regions = mem.regions();
    let mut buffer = [0u8; PIECE];
    let mut left = n;
    while left > 0 {
        let size = piece(left);
        left -= size as u64;
        copy_piece(mem, to + left, from + left, &mut buffer[..size]);
    }
}

/// How many of so many bytes are copied at once.
fn piece(n: u64) -> usize
    ensures { result ≡ min n PIECE }
{
    if n < PIECE as u64 { n as usize } else { PIECE }
}

/// Copies as many bytes as a buffer has, through it.
#[tactic(auto, using(crate::proofs::Copied::got_done, crate::proofs::Copied::put_done))]
fn copy_piece<M: Memory>(mem: &mut M, to: u64, from: u64, into: &mut [u8])
    requires some { 0 < length into.old }
    requires source { access (M.regions mem.old) (M.held mem.old) false from (length into.old) ≡ Done }
    requires target { access (M.regions mem.old) (M.held mem.old) true to (length into.old) ≡ Done }
    requires own { AreOwn (M.own mem.old) to (length into.old) }
    ensures bytes { M.byte mem.new ≡ written (M.byte mem.old) to (read_bytes (M.byte mem.old) from (length into.old)) }
    ensures kept { (p : ℕ) → M.own mem.old p ≡ true → M.own mem.new p ≡ true }
    ensures regions { M.regions mem.new ≡ M.regions mem.old }
    ensures held { M.held mem.new ≡ M.held mem.old }
{
    let _got = mem.get(from, into);
    let _put = mem.put(to, into);
}
