ghost use Rattle.std.specs.Prelude.{ℕ, List};
ghost use Rattle.no_ir.specs.declared.types.Ty.{Ty};
ghost use Rattle.no_ir.specs.declared.constant.Const.{Const};
ghost use Rattle.no_ir.specs.declared.constant.Place.{Place};
ghost use Rattle.no_lex.specs.declared.token.Token.{Token};
ghost use Rattle.no_read_rules.specs.Scope.{Meaning};
ghost use Rattle.no_read_constants.specs.Constants.{a_const};
ghost use Rattle.no_read_constants.specs.Places.{a_place};
ghost use Rattle.no_print.specs.Constants.{const_pieces, place_pieces};
ghost use Rattle.no_round_trip.specs.Spells.{AreBytes, Spells, TypeFits, TypesFit, over, spelled_by};

/// A place that was read from a text of bytes is read again where it is spelled, behind any blanks and in any other text, where
/// names mean the same.
pub fn places_mean_again()
    ensures { (m : Meaning) (text : List ℕ) (depth : ℕ) (gap : List ℕ) (tokens : List Token) (place : Place) → AreBytes m.text → (a_place m depth).means tt tokens place tt → Spells text (a_place (over m text) depth) tt (place_pieces (spelled_by m) gap place) place tt }
{}

/// A constant that was read at a type is read again at that type where it is spelled, behind any blanks and in any other text,
/// where names mean the same. The integer types among the named types, and the type itself if it is one, have 1 to 64 bits.
pub fn constants_mean_again()
    ensures { (m : Meaning) (text : List ℕ) (depth : ℕ) (t : Ty) (gap : List ℕ) (tokens : List Token) (c : Const) → AreBytes m.text → TypesFit m.types → TypeFits t → (a_const m depth t).means tt tokens c tt → Spells text (a_const (over m text) depth t) tt (const_pieces (spelled_by m) c t gap) c tt }
{}
