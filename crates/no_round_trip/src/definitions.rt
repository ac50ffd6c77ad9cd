ghost use Rattle.std.specs.Prelude.{ℕ, List, ◌≡◌, map, Ok};
ghost use Rattle.std.specs.List.{zip};
ghost use Rattle.no_ir.specs.declared.function.Module.{Module};
ghost use Rattle.no_lex.specs.declared.token.Token.{Token};
ghost use Rattle.no_read_types.specs.declared.lifted.Lifted.{Lifted};
ghost use Rattle.no_read_types.specs.Lifted.{Lifts};
ghost use Rattle.no_print.specs.Stand.{Stand};
ghost use Rattle.no_print.specs.Modules.{module_pieces, spelled_in};
ghost use Rattle.no_round_trip.specs.Spells.{AreBytes};
ghost use Rattle.no_round_trip.specs.Rest.{rest_pieces};

/// The type definitions that were lifted out of a text of bytes are lifted again, with the same names and types by number, out
/// of any other text whose tokens stand as a module with these named types is spelled; and the tokens that are left there
/// stand as the rest of the module.
pub fn definitions_lift_again()
    ensures again { (from : List ℕ) (read : List Token) (lifted : Lifted) (m : Module) (text : List ℕ) (tokens : List Token) → AreBytes from → Lifts from read (Ok lifted) → m.types ≡ zip lifted.named lifted.types → Stand text tokens (module_pieces m) → (other : Lifted) × Lifts text tokens (Ok other) × (other.named ≡ lifted.named) × (other.types ≡ lifted.types) × Stand text other.rest (rest_pieces m) }
    // The module is spelled with these names and types.
    ensures spelled { (from : List ℕ) (read : List Token) (lifted : Lifted) (m : Module) → Lifts from read (Ok lifted) → m.types ≡ zip lifted.named lifted.types → ((spelled_in m).named ≡ lifted.named) × ((spelled_in m).types ≡ lifted.types) }
{}
