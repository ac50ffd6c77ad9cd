ghost use Rattle.std.specs.Prelude.{◌≡◌, ◌⊎◌, ℕ, List, Err};
ghost use Rattle.no_ir.specs.declared.function.Role.{Role};
ghost use Rattle.no_ir.specs.declared.types.Ty.{Ty};
ghost use Rattle.no_lex.specs.declared.token.Token.{Token};
ghost use Rattle.no_read_rules.specs.declared.fault.Stopped.{Stopped};
ghost use Rattle.no_read_rules.specs.Scope.{Meaning};
ghost use Rattle.no_read_toplevel.specs.Modules.{forms_read};
ghost use Rattle.no_read.specs.Knowing.{IsRefused};
ghost use Rattle.no_read.specs.Reading.{Reads};
ghost use Rattle.no_read.specs.declared.fault.ReadFault.{ReadFault};
ghost use Rattle.no_fault_places.specs.Places.{IsPlaced, IsBarred, IsFormFault};

/// Where the forms of a text are refused, the fault stands at the end of their tokens, or at one with which no module goes on:
/// there are tokens in front, a part, and the rest, the fault is at the part's first token, and nothing that begins with those
/// in front and the part means a module. That holds of tokens of the same text, and of those of every other text in which they
/// are of the same kinds and spelled alike, where the named types mean the same; the other text may have more of these, and
/// other globals and functions.
///
/// The part is one token, but for a type that has to equal another one: this is read as a whole before it is compared, and the
/// part is the whole type.
pub fn faults_of_forms_are_placed()
    ensures { (m : Meaning) (role : Role) (types : List (List ℕ × Ty)) (tokens : List Token) (e : Stopped) → forms_read m role types tokens ≡ Err e → IsPlaced (IsBarred m role types) tokens e }
{}

/// The fault of a text is the one of its type definitions, or stands so among the tokens that the text has beside them: no text
/// that has beside its own type definitions tokens that begin so, spelled alike, reads to a module, where its first named types
/// are those of this text and no name in these tokens is that of a further one.
pub fn faults_of_texts_are_placed()
    ensures { (text : List ℕ) (role : Role) (tokens : List Token) (f : ReadFault) → Reads text role tokens (Err f) → IsRefused text tokens f ⊎ IsFormFault text role tokens f }
{}
