ghost use Rattle.std.specs.Prelude.{◌≡◌, OnOk};
ghost use Rattle.no_print.specs.Instructions.{binary_word as binary_word_of, cast_word as cast_word_of, pred_word as pred_word_of};
ghost use Rattle.no_print.specs.Pieces.{spaced, word};
ghost use Rattle.no_print.specs.Wrote.{Wrote};

use crate::output::{SPACED, put_word};
use no_ir::{BinOp, CastOp, NoMemory, Pred};
use no_words::{binary_word, cast_word, pred_word};

/// Appends the word of a binary operator behind blanks.
pub(crate) fn put_binary_word(out: &mut Vec<u8>, gap: &[u8], by: BinOp) -> Result<(), NoMemory>
    ensures { OnOk result (Wrote out.old.items out.new.items (word gap.now (binary_word_of by))) }
{
    put_word(out, gap, binary_word(by))
}

/// Appends the word of a conversion behind blanks.
pub(crate) fn put_cast_word(out: &mut Vec<u8>, gap: &[u8], cast: CastOp) -> Result<(), NoMemory>
    ensures { OnOk result (Wrote out.old.items out.new.items (word gap.now (cast_word_of cast))) }
{
    put_word(out, gap, cast_word(cast))
}

/// Appends the word of a comparison.
pub(crate) fn put_pred_word(out: &mut Vec<u8>, pred: Pred) -> Result<(), NoMemory>
    ensures { OnOk result (Wrote out.old.items out.new.items (word spaced (pred_word_of pred))) }
{
    put_word(out, SPACED, pred_word(pred))
}
