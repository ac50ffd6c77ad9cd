ghost use Rattle.std.specs.Prelude.{◌≡◌, ℕ, Bool, false, List, map};
ghost use Rattle.no_lex.specs.declared.token.Token.{Token};
ghost use Rattle.no_ir.specs.declared.function.Module.{Module};
ghost use Rattle.no_ir.specs.declared.function.Role.{Role};
ghost use Rattle.no_ir.specs.declared.types.Ty.{Ty};
ghost use Rattle.no_read_rules.specs.Scope.{Meaning};
ghost use Rattle.no_read_symbols.specs.Scan.{symbols_in};
ghost use Rattle.no_read_toplevel.specs.declared.tops.Top.{Top};
ghost use Rattle.no_read_toplevel.specs.Modules.{IsModuleOf};
ghost use Rattle.no_read_toplevel.specs.Tops.{tops};
ghost use Rattle.no_read_names.specs.Defined.{names_once, defined_by};

/// What one look at each token finds are the names of the module: where the tokens of a text are the forms of a module, the scan of
/// the text finds the names of the module's globals and those of its functions, each name once and in the order of first appearance.
#[tactic(auto, using(crate::proofs::Named::forms_named))]
pub fn names_are_the_modules()
    ensures forms { (m : Meaning) (role : Role) (tokens : List Token) (forms : List Top) (stated : Bool) → (tops m role).means false tokens forms stated → symbols_in m.text tokens ≡ defined_by forms }
    ensures globals { (m : Meaning) (role : Role) (types : List (List ℕ × Ty)) (tokens : List Token) (found : Module) → IsModuleOf m role types tokens found → (symbols_in m.text tokens).globals ≡ names_once (map (λ g. g.name) found.globals) }
    ensures functions { (m : Meaning) (role : Role) (types : List (List ℕ × Ty)) (tokens : List Token) (found : Module) → IsModuleOf m role types tokens found → (symbols_in m.text tokens).functions ≡ names_once (map (λ f. f.name) found.functions) }
{}
