ghost use Rattle.std.specs.Prelude.{◌≡◌, ℕ, List, Some};
ghost use Rattle.no_eval.specs.Compare.{compare_of};
ghost use Rattle.no_ir.specs.declared.instruction.BinOp.{BinOp};
ghost use Rattle.no_ir.specs.declared.instruction.CastOp.{CastOp};
ghost use Rattle.no_ir.specs.declared.instruction.Pred.{Pred};
ghost use Rattle.no_words.specs.Words.{binary_named, binary_word, cast_named, cast_word, letters_say, pred_named, pred_word};

/// What a word names has this word, and each word names what has it; the letters of a comparison's word say what it compares.
pub fn words_name_what_has_them()
    ensures binary { (x : BinOp) → binary_named (binary_word x) ≡ Some x }
    ensures cast { (x : CastOp) → cast_named (cast_word x) ≡ Some x }
    ensures pred { (x : Pred) → pred_named (pred_word x) ≡ Some x }
    ensures only_binary { (word : List ℕ) (x : BinOp) → binary_named word ≡ Some x → word ≡ binary_word x }
    ensures only_cast { (word : List ℕ) (x : CastOp) → cast_named word ≡ Some x → word ≡ cast_word x }
    ensures only_pred { (word : List ℕ) (x : Pred) → pred_named word ≡ Some x → word ≡ pred_word x }
    ensures letters { (p : Pred) (w a b : ℕ) → letters_say (pred_word p) w a b ≡ compare_of p w a b }
{}
