ghost use Rattle.std.specs.Prelude.{ℕ, List, ◌≡◌, [], codes, IfOk};
ghost use Rattle.no_ir.specs.Naming.{with_name};
ghost use Rattle.no_read_rules.specs.Rules.{Gives, one, checked, lift};
ghost use Rattle.no_read_rules.specs.Scope.{seen};
ghost use Rattle.no_read_rules.specs.Types.{a_type};
ghost use Rattle.no_read_types.specs.Lifting.{name_at, begins_definition, new_name, a_struct, a_definition, names_from, lift_all, type_definitions};

use no_ir::{Bytes, List, Names, NoMemory, Ty};
use no_lex::{Token, TokenKind};
use no_read_rules::{
    Scope, Stop, a_type, is_kind, is_sign, is_word, name_of, skip_sign, skip_word, spelled, syntax,
};
use std::alloc::Global;

/// The definition of a type.
#[derive(Debug, Drop)]
pub struct Definition {
    /// The place of its name in bytes.
    pub at: u32,
    /// The name, without its sign.
    pub name: Bytes,
    pub ty: Ty,
}

/// The definitions in the order of the text, and the tokens without them.
#[derive(Debug, Drop)]
pub struct Lifting {
    pub defined: List<Definition>,
    pub kept: List<Token>,
}

/// The name behind the sign of a token.
fn name_at(alloc: Global, text: &[u8], token: &Token) -> Result<Bytes, NoMemory>
    ensures { IfOk result (λ name. name ≡ name_at text.now token.now) }
{
    match spelled(text, token) {
        [_, body @ ..] => name_of(alloc, body),
        [] => name_of(alloc, &[]),
    }
}

/// A name has appeared.
pub(crate) fn add_name(names: &mut Names, name: &[u8]) -> Result<(), NoMemory>
    ensures { IfOk result (λ _. names.new ≡ with_name names.old name.now) }
{
    if names.len() >= u32::MAX as usize {
        return Err(NoMemory);
    }
    names.number(name)?;
    Ok(())
}

/// Whether a definition begins here.
fn begins_definition(text: &[u8], tokens: &[Token]) -> bool
    ensures { result ≡ begins_definition text.now tokens.now }
{
    match tokens {
        [name, sign, word, ..] => is_kind(TokenKind::Local, name)
            && is_sign(text, b"=", sign)
            && is_word(text, b"type", word),
        _ => false,
    }
}

/// The place and the name of a definition, whose name is new.
fn new_name<'b>(
    alloc: Global,
    text: &[u8],
    names: &mut Names,
    tokens: &'b [Token],
) -> Result<((u32, Bytes), &'b [Token]), Stop>
    ensures { Gives (λ x. (x.0, names.new, x.1.now)) result ((one (new_name text.now)).read names.old tokens.now) }
{
    match tokens {
        [token, rest @ ..] if is_kind(TokenKind::Local, token) => {
            let name = name_at(alloc, text, token)?;
            match names.find(name.as_slice()) {
                Some(_) => Err(syntax(tokens)),
                None => {
                    add_name(names, name.as_slice())?;
                    Ok(((token.start, name), rest))
                }
            }
        }
        _ => Err(syntax(tokens)),
    }
}

/// A type that has to be a struct.
fn struct_type<'b>(
    alloc: Global,
    scope: &Scope,
    tokens: &'b [Token],
) -> Result<(Ty, &'b [Token]), Stop>
    ensures { (names : List (List ℕ)) → Gives (λ x. (x.0, names, x.1.now)) result ((checked (lift (a_type (seen scope.now) 64)) a_struct).read names tokens.now) }
{
    let (ty, rest) = a_type(alloc, scope, 64, tokens)?;
    match ty {
        Ty::Struct(packed, fields) => Ok((Ty::Struct(packed, fields), rest)),
        _ => Err(syntax(tokens)),
    }
}

/// A definition, by the names of those before it.
#[tactic(auto, unfolding(crate::specs::Lifting::a_definition))]
fn a_definition<'b>(
    alloc: Global,
    scope: &Scope,
    names: &mut Names,
    tokens: &'b [Token],
) -> Result<(Definition, &'b [Token]), Stop>
    ensures { Gives (λ x. (x.0, names.new, x.1.now)) result ((a_definition (seen scope.now)).read names.old tokens.now) }
{
    let ((at, name), rest) = new_name(alloc, scope.text, names, tokens)?;
    let rest = skip_sign(scope.text, b"=", rest)?;
    let rest = skip_word(scope.text, b"type", rest)?;
    let (ty, rest) = struct_type(alloc, scope, rest)?;
    Ok((Definition { at, name, ty }, rest))
}

/// The names of all definitions, in the order in which they first appear.
fn names_in(alloc: Global, text: &[u8], tokens: &[Token]) -> Result<Names, NoMemory>
    ensures { IfOk result (λ names. names ≡ names_from text.now [] tokens.now) }
{
    let mut names = Names::new(alloc)?;
    let mut rest = tokens;
    while let [token, more @ ..] = rest {
        if begins_definition(text, rest) {
            let name = name_at(alloc, text, token)?;
            add_name(&mut names, name.as_slice())?;
        }
        rest = more;
    }
    Ok(names)
}

/// The definitions, and the tokens between them.
fn lift_all(alloc: Global, scope: &Scope, tokens: &[Token]) -> Result<Lifting, Stop>
    ensures { Gives (λ l. l) result (lift_all (seen scope.now) [] tokens.now) }
{
    let mut names = Names::new(alloc)?;
    let mut defined = List::new(alloc);
    let mut kept = List::new(alloc);
    let mut rest = tokens;
    while let [token, more @ ..] = rest {
        if begins_definition(scope.text, rest) {
            let (lifted, behind) = a_definition(alloc, scope, &mut names, rest)?;
            defined.push(lifted)?;
            rest = behind;
        } else {
            kept.push(*token)?;
            rest = more;
        }
    }
    Ok(Lifting { defined, kept })
}

/// The definitions of a text and its other tokens, or the first fault in a definition.
pub(crate) fn type_definitions(
    alloc: Global,
    text: &[u8],
    tokens: &[Token],
) -> Result<Lifting, Stop>
    ensures { Gives (λ l. l) result (type_definitions text.now tokens.now) }
{
    let named = names_in(alloc, text, tokens)?;
    let none = Names::new(alloc)?;
    let scope = Scope {
        text,
        named: &named,
        types: &[],
        globals: &none,
        functions: &none,
    };
    lift_all(alloc, &scope, tokens)
}
