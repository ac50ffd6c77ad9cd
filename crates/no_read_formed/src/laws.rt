ghost use Rattle.std.specs.Prelude.{◌≡◌, ℕ, List, length, Ok, true};
ghost use Rattle.std.specs.List.{zip};
ghost use Rattle.no_lex.specs.declared.token.Token.{Token};
ghost use Rattle.no_ir.specs.declared.types.Ty.{Ty};
ghost use Rattle.no_ir.specs.declared.function.Module.{Module};
ghost use Rattle.no_ir.specs.declared.function.Role.{Role};
ghost use Rattle.no_read_rules.specs.Scope.{Meaning};
ghost use Rattle.no_read_rules.specs.Types.{a_type};
ghost use Rattle.no_read_toplevel.specs.Modules.{IsModuleOf};
ghost use Rattle.no_module.specs.Formed.{IsFormed, type_formed};
ghost use Rattle.no_module.specs.Marks.{MarksAllowed};
ghost use Rattle.no_read_types.specs.declared.definition.Lifting.{Lifting};
ghost use Rattle.no_read_types.specs.declared.lifted.Lifted.{Lifted};
ghost use Rattle.no_read_types.specs.Lifting.{lift_all, Parted};
ghost use Rattle.no_read_types.specs.Lifted.{Lifts};
ghost use Rattle.no_read_formed.specs.Named.{IsTyped, meaning_in};

/// The module that the forms of a text give is formed, where its named types are: each width, constant, case, alignment and
/// number of it is in its range, and void stands only where it may. In a source no instruction and no function has a mark of
/// a server's part.
#[tactic(auto, using(crate::proofs::Types::type_all, crate::proofs::Modules::read_formed, crate::proofs::Modules::read_marks))]
pub fn what_is_read_is_formed()
    ensures types { (m : Meaning) (depth : ℕ) (s t : Unit {0}) (used : List Token) (a : Ty) → (a_type m depth).means s used a t → type_formed (length m.named) a ≡ true }
    ensures modules { (m : Meaning) (role : Role) (types : List (List ℕ × Ty)) (tokens : List Token) (found : Module) → IsModuleOf m role types tokens found → IsTyped m types tokens → IsFormed found }
    // Names mean that, where a text's type definitions are those that were lifted out of it: `definitions_are_exact` says so.
    ensures typed { ((m : Meaning) (names : List (List ℕ)) (tokens : List Token) (l : Lifting) → lift_all m names tokens ≡ Ok l → Parted m names tokens l) → (text : List ℕ) (tokens : List Token) (x : Lifted) → Lifts text tokens (Ok x) → IsTyped (meaning_in text x) (zip x.named x.types) x.rest }
    ensures marks { (m : Meaning) (role : Role) (types : List (List ℕ × Ty)) (tokens : List Token) (found : Module) → IsModuleOf m role types tokens found → IsTyped m types tokens → MarksAllowed role found }
{}
