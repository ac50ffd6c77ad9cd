ghost use Rattle.std.specs.Prelude.{ℕ, List};
ghost use Rattle.no_ir.specs.declared.function.Module.{Module};
ghost use Rattle.no_ir.specs.declared.function.Role.{Role};
ghost use Rattle.no_ir.specs.declared.types.Ty.{Ty};
ghost use Rattle.no_lex.specs.declared.token.Token.{Token};
ghost use Rattle.no_read_rules.specs.Scope.{Meaning};
ghost use Rattle.no_read_toplevel.specs.Modules.{IsModuleOf};
ghost use Rattle.no_print.specs.Stand.{Stand};
ghost use Rattle.no_round_trip.specs.Spells.{AreBytes, TypesFit, over, spelled_by};
ghost use Rattle.no_round_trip.specs.Printed.{form_pieces};

/// A module that was read from a text of bytes is read again in the same role from any other text whose tokens stand as the
/// module's layout, globals and functions are spelled, where the names of types, globals and functions mean the same.
pub fn modules_mean_again()
    ensures { (m : Meaning) (text : List ℕ) (role : Role) (types : List (List ℕ × Ty)) (tokens others : List Token) (found : Module) → AreBytes m.text → TypesFit m.types → IsModuleOf m role types tokens found → Stand text others (form_pieces (spelled_by m) found) → IsModuleOf (over m text) role types others found }
{}
