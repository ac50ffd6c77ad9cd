ghost use Rattle.std.specs.Prelude.{ℕ, ◌<◌, ◌≤◌, ◌^◌, List, ◌∷◌, ◌≡◌, Ok, decimal};
ghost use Rattle.std.specs.Fmt.{signed_decimal};
ghost use Rattle.no_read_rules.specs.declared.types.TypeHead.TheVariants;
ghost use Rattle.no_read_rules.specs.Types.{word_type};
ghost use Rattle.no_read_rules.specs.Numbers.{integer_at, count_of};
ghost use Rattle.no_read_rules.specs.Unescaped.{unescaped, inner, name_of};
ghost use Rattle.no_print.specs.Constants.{index_width};
ghost use Rattle.no_eval.specs.Numbers.{signed};
ghost use Rattle.no_print.specs.Names.{quoted, spelling};
ghost use Rattle.no_round_trip.specs.Spells.{AreBytes};

/// The spelling of a name is read as that name, and a string in quotes as its bytes.
pub fn names_mean_again()
    ensures name { (name : List ℕ) → AreBytes name → name_of (spelling name) ≡ name }
    ensures text { (bytes : List ℕ) → AreBytes bytes → unescaped (inner (quoted bytes)) ≡ bytes }
{}

/// A number of an integer type of 1 to 64 bits, written in decimal with its sign, is read as that number; so are a
/// count of elements below 2 to the power of 32, an index at the width at which it is written, and an integer type's name.
pub fn numbers_mean_again()
    ensures integer { (w n : ℕ) → 0 < w → w ≤ 64 → n < 2 ^ w → integer_at w (signed_decimal (signed w n)) ≡ Ok n }
    // An index is written at 32 bits where these hold it, and else at 64, and its sign is read back.
    ensures index { (w n : ℕ) → w ≤ 64 → n < 2 ^ w → (k : ℕ) × (integer_at (index_width (signed w n)) (signed_decimal (signed w n)) ≡ Ok k) × (signed (index_width (signed w n)) k ≡ signed w n) }
    // The name of an integer type that was read is read as it.
    ensures width { (word : List ℕ) (w : ℕ) → word_type word ≡ Ok (TheVariants.Int w) → word_type (105 ∷ decimal w) ≡ Ok (TheVariants.Int w) }
    ensures count { (n : ℕ) → n < 2 ^ 32 → count_of (decimal n) ≡ Ok n }
{}
