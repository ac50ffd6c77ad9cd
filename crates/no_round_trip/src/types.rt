ghost use Rattle.std.specs.Prelude.{ℕ, List, ◌≡◌, Ok};
ghost use Rattle.no_ir.specs.declared.types.Ty.{Ty};
ghost use Rattle.no_lex.specs.declared.token.Token.{Token};
ghost use Rattle.no_read_rules.specs.Rules.{checked};
ghost use Rattle.no_read_rules.specs.Scope.{Meaning};
ghost use Rattle.no_read_rules.specs.Types.{a_type, must_be};
ghost use Rattle.no_print.specs.Types.{type_pieces};
ghost use Rattle.no_round_trip.specs.Spells.{AreBytes, Spells, TypeFits, over};

/// A type that was read from a text of bytes is read again where it is spelled, behind any blanks and in any other text, where
/// names mean the same. So is a type that had to be a certain one. An integer type that was read has 1 to 64 bits.
pub fn types_mean_again()
    ensures any { (m : Meaning) (text : List ℕ) (depth : ℕ) (gap : List ℕ) (tokens : List Token) (t : Ty) → AreBytes m.text → (a_type m depth).means tt tokens t tt → Spells text (a_type (over m text) depth) tt (type_pieces m.named t gap) t tt }
    ensures wanted { (m : Meaning) (text : List ℕ) (depth : ℕ) (gap : List ℕ) (tokens : List Token) (want : Ty) → AreBytes m.text → (checked (a_type m depth) (must_be want)).means tt tokens tt tt → Spells text (checked (a_type (over m text) depth) (must_be want)) tt (type_pieces m.named want gap) tt tt }
    ensures fits { (m : Meaning) (depth : ℕ) (tokens : List Token) (t : Ty) → AreBytes m.text → (a_type m depth).means tt tokens t tt → TypeFits t }
{}
