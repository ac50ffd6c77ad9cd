ghost use Rattle.std.specs.Prelude.{◌<◌, ◌≡◌};
ghost use Rattle.no_semantics.specs.Externals.{bounded, do_getchar, do_putchar, with_none, with_one};
ghost use Rattle.no_lib.specs.Answers.{Means, Seen};

use crate::answer::LibAnswer;
use crate::arguments::{none, one};
use crate::env::Env;
use no_module::External;

/// `getchar`: the next byte of the input, or -1 at its end.
#[tactic(auto, using(crate::proofs::Told::not_none_means, crate::proofs::Told::getchar_asks))]
pub(crate) fn get_char(args: &[u64], left: u64, env: &mut Env) -> LibAnswer
    requires { 0 < left }
    ensures { (s : Seen) → s.env ≡ env.old → Means External.GetChar (λ w. bounded left (with_none args.now do_getchar w) w) result s (record s { env = env.new }) }
{
    if !none(args) {
        return LibAnswer::Stuck;
    }
    if let Some(byte) = env.input.take() {
        return LibAnswer::Value(byte as u64, 1);
    }
    if env.ended {
        LibAnswer::Value(0xffff_ffff, 1)
    } else {
        LibAnswer::WantInput
    }
}

/// `putchar`: writes the low byte, and gives it back.
#[tactic(auto, using(crate::proofs::Told::not_one_means, crate::proofs::Told::putchar_full))]
pub(crate) fn put_char(args: &[u64], left: u64, env: &mut Env) -> LibAnswer
    requires { 0 < left }
    ensures { (s : Seen) → s.env ≡ env.old → Means External.PutChar (λ w. bounded left (with_one args.now do_putchar w) w) result s (record s { env = env.new }) }
{
    let Some(c) = one(args) else {
        return LibAnswer::Stuck;
    };
    let byte = (c % 256) as u8;
    match env.output.push(byte) {
        Ok(()) => LibAnswer::Value(byte as u64, 1),
        Err(_refused) => LibAnswer::NoMemory,
    }
}
