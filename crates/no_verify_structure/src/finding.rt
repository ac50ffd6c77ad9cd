ghost use Rattle.std.specs.Prelude.{◌≡◌, IfOk, IfErr, Some, None, true};
ghost use Rattle.no_ir.specs.declared.instruction.Instr.{Instr};
ghost use Rattle.no_verify_types.specs.Places.{fault_at};
ghost use Rattle.no_verify_structure.specs.Finding.{block_break, first_break, first_instr};

use no_ir::{Block, Instr, NoMemory};
use no_verify_types::FaultPlace;

/// A rule on instructions.
pub(crate) trait InstrRule {
    ghost use Rattle.std.specs.Prelude.{◌≡◌, Bool, true};
    ghost use Rattle.no_ir.specs.declared.instruction.Instr.{Instr};

    /// What has to hold before the rule is asked.
    ghost ready: { Self → Bool };

    ghost keeps: { Self → Instr → Bool };

    fn keeps(&self, instr: &Instr) -> bool
        requires { ready self.now ≡ true }
        ensures { result ≡ keeps self.now instr.now };
}

/// The first instruction of a block that breaks a rule.
fn first_break<T: InstrRule>(rule: &T, instrs: &[Instr]) -> Option<usize>
    requires { T.ready rule.now ≡ true }
    ensures { result ≡ first_break (λ i. T.keeps rule.now) 0 instrs.now }
{
    for (i, instr) in instrs.iter().enumerate() {
        if !rule.keeps(instr) {
            return Some(i);
        }
    }
    None
}

fn block_break<T: InstrRule>(rule: &T, block: &Block) -> Option<usize>
    requires { T.ready rule.now ≡ true }
    ensures { result ≡ block_break (T.keeps rule.now) block.now }
{
    first_break(rule, block.instrs.as_slice())
}

/// Block and place of the first instruction of a function that breaks a rule.
pub(crate) fn first_instr<T: InstrRule>(rule: &T, blocks: &[Block]) -> Option<(usize, usize)>
    requires { T.ready rule.now ≡ true }
    ensures { result ≡ first_instr (T.keeps rule.now) blocks.now }
{
    for (b, block) in blocks.iter().enumerate() {
        if let Some(i) = block_break(rule, block) {
            return Some((b, i));
        }
    }
    None
}

/// The place of what concerns a module as a whole.
pub(crate) fn whole() -> FaultPlace
    ensures { result ≡ fault_at 0 0 0 }
{
    FaultPlace {
        function: 0,
        block: 0,
        place: 0,
    }
}

/// A place by its numbers. Numbers of 2^32 and above, which no text has room for, are want of memory.
pub(crate) fn fault_place(
    function: usize,
    block: usize,
    place: usize,
) -> Result<FaultPlace, NoMemory>
    ensures { IfOk result (λ p. p ≡ fault_at function block place) }
{
    match (
        u32::try_from(function),
        u32::try_from(block),
        u32::try_from(place),
    ) {
        (Ok(function), Ok(block), Ok(place)) => Ok(FaultPlace {
            function,
            block,
            place,
        }),
        _ => Err(NoMemory),
    }
}
