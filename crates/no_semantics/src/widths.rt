ghost use Rattle.std.specs.Prelude.{◌≡◌, ◌%◌, ◌^◌, ◌<◌, ◌≤◌, true};
ghost use Rattle.no_layout.specs.Orders.{IsWidth};
ghost use Rattle.no_semantics.specs.Sound.{is_scalar, is_width};
ghost use Rattle.no_semantics.specs.Values.{bytes_of_width, width_of};

use crate::Sound;
use no_eval::cast;
use no_ir::{CastOp, Ty};
use no_layout::Layout;

/// The low w bits of a number.
pub fn narrowed(w: u8, n: u64) -> u64
    requires some { 0 < w }
    requires most { w ≤ 64 }
    ensures value { result ≡ n % 2 ^ w }
    ensures within { result < 2 ^ w }
{
    cast(CastOp::PtrToInt, 64, w, n)
}

/// How many bytes a number of w bits takes in memory; a number of one bit takes a whole one.
#[tactic(auto, using(crate::proofs::Scalars::bytes_width, crate::proofs::Scalars::bytes_room))]
pub fn bytes_of(w: u8) -> usize
    requires { is_width w ≡ true }
    ensures bytes { result ≡ bytes_of_width w }
    ensures width { IsWidth result }
    ensures room { 2 ^ w ≤ 256 ^ result }
{
    if w == 1 { 1 } else { usize::from(w / 8) }
}

/// The width of a pointer in bits.
#[tactic(auto, using(crate::proofs::Scalars::pointer_width, crate::proofs::Scalars::some, crate::proofs::Scalars::most))]
pub fn pointer_width(sound: &Sound) -> u8
    ensures value { result ≡ sound.now.layout.pointer }
    ensures width { is_width result ≡ true }
    ensures some { 0 < result }
    ensures most { result ≤ 64 }
{
    sound.layout().pointer
}

/// How many bits a value of an integer type or a pointer has.
pub fn width(layout: &Layout, t: &Ty) -> u8
    ensures { result ≡ width_of layout.now t.now }
{
    match t {
        Ty::Int(w) => *w,
        Ty::Ptr => layout.pointer,
        _ => 0,
    }
}

/// The same under the layout of a module that was accepted.
#[tactic(auto, using(crate::proofs::Scalars::scalar_width, crate::proofs::Scalars::some, crate::proofs::Scalars::most))]
pub fn width_at(sound: &Sound, t: &Ty) -> u8
    requires { is_scalar t.now ≡ true }
    ensures value { result ≡ width_of sound.now.layout t.now }
    ensures width { is_width result ≡ true }
    ensures some { 0 < result }
    ensures most { result ≤ 64 }
{
    width(sound.layout(), t)
}
