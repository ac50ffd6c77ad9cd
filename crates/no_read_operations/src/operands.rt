ghost use Rattle.std.specs.Prelude.{◌≡◌, codes};
ghost use Rattle.no_ir.specs.declared.types.Ty.TheVariants as ty;
ghost use Rattle.no_read_rules.specs.Rules.{Gives};
ghost use Rattle.no_read_rules.specs.Scope.{Meaning, seen};
ghost use Rattle.no_read_constants.specs.Skipped.{skip_while};
ghost use Rattle.no_read_registers.specs.declared.locals.Locals.{Locals};
ghost use Rattle.no_read_rules.specs.Rules.{passed, valued, checked};
ghost use Rattle.no_read_rules.specs.Types.{a_type, must_be};
ghost use Rattle.no_read_operations.specs.Operands.{DEPTH, register_operand, const_operand, an_operand, a_pointer, sized_operand, typed_operand, two_operands, bit_operand, comma_pointer, comma_label, is_flag_word};

use no_ir::{Operand, Ty};
use no_lex::{Token, TokenKind};
use no_module::same_type;
use no_read_constants::{a_const, width_of};
use no_read_registers::{Locals, a_label, a_register};
use no_read_rules::{Scope, Stop, a_type, is_kind, is_word, skip_sign, skip_word, syntax};
use std::alloc::Global;

/// How many brackets of types and constants may stand one in another.
pub(crate) const DEPTH: u32 = 64;

/// A type.
pub fn some_type<'b>(
    alloc: Global,
    scope: &Scope,
    tokens: &'b [Token],
) -> Result<(Ty, &'b [Token]), Stop>
    ensures { Gives (λ x. valued x.0 x.1.now) result ((a_type (seen scope.now) DEPTH).read tt tokens.now) }
{
    a_type(alloc, scope, DEPTH, tokens)
}

/// A type that has to be this one.
pub(crate) fn this_type<'b>(
    alloc: Global,
    scope: &Scope,
    want: &Ty,
    tokens: &'b [Token],
) -> Result<&'b [Token], Stop>
    ensures { Gives (λ rest. passed rest.now) result ((checked (a_type (seen scope.now) DEPTH) (must_be want.now)).read tt tokens.now) }
{
    let (found, rest) = some_type(alloc, scope, tokens)?;
    if same_type(&found, want) {
        Ok(rest)
    } else {
        Err(syntax(tokens))
    }
}

#[tactic(auto, unfolding(crate::specs::Operands::register_operand))]
fn register_operand<'b>(
    alloc: Global,
    text: &[u8],
    locals: &mut Locals,
    tokens: &'b [Token],
) -> Result<(Operand, &'b [Token]), Stop>
    ensures { Gives (λ x. (x.0, locals.new, x.1.now)) result ((register_operand text.now).read locals.old tokens.now) }
{
    let (register, rest) = a_register(alloc, text, locals, tokens)?;
    Ok((Operand::Reg(register), rest))
}

#[tactic(auto, unfolding(crate::specs::Operands::const_operand))]
fn const_operand<'b>(
    alloc: Global,
    scope: &Scope,
    of: &Ty,
    tokens: &'b [Token],
) -> Result<(Operand, &'b [Token]), Stop>
    ensures { (s : Locals) → Gives (λ x. (x.0, s, x.1.now)) result ((const_operand (seen scope.now) of.now).read s tokens.now) }
{
    let (constant, rest) = a_const(alloc, scope, of, DEPTH, tokens)?;
    Ok((Operand::Const(constant), rest))
}

/// A register, or a constant at a type.
#[tactic(auto, unfolding(crate::specs::Operands::an_operand))]
pub fn an_operand<'b>(
    alloc: Global,
    scope: &Scope,
    locals: &mut Locals,
    of: &Ty,
    tokens: &'b [Token],
) -> Result<(Operand, &'b [Token]), Stop>
    ensures { Gives (λ x. (x.0, locals.new, x.1.now)) result ((an_operand (seen scope.now) of.now).read locals.old tokens.now) }
{
    match tokens {
        [token, ..] if is_kind(TokenKind::Local, token) => register_operand(
            alloc, scope.text, locals, tokens,
        ),
        _ => const_operand(alloc, scope, of, tokens),
    }
}

/// The pointer type, and an operand at it.
#[tactic(auto, unfolding(crate::specs::Operands::a_pointer))]
fn a_pointer<'b>(
    alloc: Global,
    scope: &Scope,
    locals: &mut Locals,
    tokens: &'b [Token],
) -> Result<(Operand, &'b [Token]), Stop>
    ensures { Gives (λ x. (x.0, locals.new, x.1.now)) result ((a_pointer (seen scope.now)).read locals.old tokens.now) }
{
    let rest = skip_word(scope.text, b"ptr", tokens)?;
    an_operand(alloc, scope, locals, &Ty::Ptr, rest)
}

/// A width, and an operand of it.
#[tactic(auto, unfolding(crate::specs::Operands::sized_operand))]
pub(crate) fn sized_operand<'b>(
    alloc: Global,
    scope: &Scope,
    locals: &mut Locals,
    tokens: &'b [Token],
) -> Result<((u8, Operand), &'b [Token]), Stop>
    ensures { Gives (λ x. (x.0, locals.new, x.1.now)) result ((sized_operand (seen scope.now)).read locals.old tokens.now) }
{
    let (width, rest) = width_of(scope.text, tokens)?;
    let (value, rest) = an_operand(alloc, scope, locals, &Ty::Int(width), rest)?;
    Ok(((width, value), rest))
}

/// A type, and an operand at it.
#[tactic(auto, unfolding(crate::specs::Operands::typed_operand))]
pub(crate) fn typed_operand<'b>(
    alloc: Global,
    scope: &Scope,
    locals: &mut Locals,
    tokens: &'b [Token],
) -> Result<((Ty, Operand), &'b [Token]), Stop>
    ensures { Gives (λ x. (x.0, locals.new, x.1.now)) result ((typed_operand (seen scope.now)).read locals.old tokens.now) }
{
    let (of, rest) = some_type(alloc, scope, tokens)?;
    let (value, rest) = an_operand(alloc, scope, locals, &of, rest)?;
    Ok(((of, value), rest))
}

/// Two operands at one type, with a comma between them.
#[tactic(auto, unfolding(crate::specs::Operands::two_operands))]
pub(crate) fn two_operands<'b>(
    alloc: Global,
    scope: &Scope,
    locals: &mut Locals,
    of: &Ty,
    tokens: &'b [Token],
) -> Result<((Operand, Operand), &'b [Token]), Stop>
    ensures { Gives (λ x. (x.0, locals.new, x.1.now)) result ((two_operands (seen scope.now) of.now).read locals.old tokens.now) }
{
    let (first, rest) = an_operand(alloc, scope, locals, of, tokens)?;
    let rest = skip_sign(scope.text, b",", rest)?;
    let (second, rest) = an_operand(alloc, scope, locals, of, rest)?;
    Ok(((first, second), rest))
}

/// A bit, as conditions are.
#[tactic(auto, unfolding(crate::specs::Operands::bit_operand))]
pub(crate) fn bit_operand<'b>(
    alloc: Global,
    scope: &Scope,
    locals: &mut Locals,
    tokens: &'b [Token],
) -> Result<(Operand, &'b [Token]), Stop>
    ensures { Gives (λ x. (x.0, locals.new, x.1.now)) result ((bit_operand (seen scope.now)).read locals.old tokens.now) }
{
    let rest = skip_word(scope.text, b"i1", tokens)?;
    an_operand(alloc, scope, locals, &Ty::Int(1), rest)
}

/// Behind a comma: an address.
#[tactic(auto, unfolding(crate::specs::Operands::comma_pointer))]
pub(crate) fn comma_pointer<'b>(
    alloc: Global,
    scope: &Scope,
    locals: &mut Locals,
    tokens: &'b [Token],
) -> Result<(Operand, &'b [Token]), Stop>
    ensures { Gives (λ x. (x.0, locals.new, x.1.now)) result ((comma_pointer (seen scope.now)).read locals.old tokens.now) }
{
    let rest = skip_sign(scope.text, b",", tokens)?;
    a_pointer(alloc, scope, locals, rest)
}

/// Behind a comma: a label.
#[tactic(auto, unfolding(crate::specs::Operands::comma_label))]
pub(crate) fn comma_label<'b>(
    alloc: Global,
    text: &[u8],
    locals: &mut Locals,
    tokens: &'b [Token],
) -> Result<(u32, &'b [Token]), Stop>
    ensures { Gives (λ x. (x.0, locals.new, x.1.now)) result ((comma_label text.now).read locals.old tokens.now) }
{
    let rest = skip_sign(text, b",", tokens)?;
    a_label(alloc, text, locals, rest)
}

/// Words without an effect that may stand behind the first word of a form.
#[derive(Clone, Copy, Debug, PartialEq, Eq)]
pub enum Flags {
    Nothing,
    Wrapping,
    Exact,
    Disjoint,
    NonNegative,
    SameSign,
}

fn is_flag_word(text: &[u8], flags: Flags, token: &Token) -> bool
    ensures { result ≡ is_flag_word text.now flags token.now }
{
    match flags {
        Flags::Nothing => false,
        Flags::Wrapping => is_word(text, b"nsw", token) || is_word(text, b"nuw", token),
        Flags::Exact => is_word(text, b"exact", token),
        Flags::Disjoint => is_word(text, b"disjoint", token),
        Flags::NonNegative => is_word(text, b"nneg", token),
        Flags::SameSign => is_word(text, b"samesign", token),
    }
}

/// Behind words without an effect.
pub(crate) fn skip_flag_words<'b>(text: &[u8], flags: Flags, tokens: &'b [Token]) -> &'b [Token]
    ensures { result.now ≡ skip_while (is_flag_word text.now flags) tokens.now }
{
    let mut rest = tokens;
    while let [token, more @ ..] = rest {
        if !is_flag_word(text, flags, token) {
            break;
        }
        rest = more;
    }
    rest
}
