ghost use Rattle.std.specs.Prelude.{◌≡◌, ◌∷◌, ◌++◌, [], true, false, codes, Bool, List, Result};
ghost use Rattle.no_lex.specs.declared.token.Token.{Token};
ghost use Rattle.no_ir.specs.declared.instruction.Op.{Op};
ghost use Rattle.no_read_rules.specs.declared.fault.Stopped.{Stopped};
ghost use Rattle.no_read_rules.specs.Rules.{Gives, after, valued, plain, next_is};
ghost use Rattle.no_read_attributes.specs.Attributes.{alignment_of};
ghost use Rattle.no_read_rules.specs.Spelled.{is_sign};
ghost use Rattle.no_read_registers.specs.declared.locals.Locals.{Locals};
ghost use Rattle.no_read_operations.specs.Folded.{folded_all};
ghost use Rattle.no_read_operations.specs.Ends.{is_comma, an_alignment, names_node, is_node, node_is, marks, an_attachment, end_alignment, end_attachment, end_step, end_mark, finish, with_inserted, behind_form};

use no_ir::{List, Op, Role};
use no_lex::{Token, TokenKind};
use no_read_attributes::{alignment, is_node as is_debug_node};
use no_read_rules::{Stop, is_kind, is_sign, is_word, skip_sign, skip_word, spelled, syntax};

/// The word `align`, and a power of two up to 65,536.
#[tactic(auto, unfolding(crate::specs::Ends::an_alignment))]
pub(crate) fn an_alignment<'b>(text: &[u8], tokens: &'b [Token]) -> Result<(u32, &'b [Token]), Stop>
    ensures { Gives (λ x. valued x.0 x.1.now) result ((an_alignment text.now).read tt tokens.now) }
{
    let rest = skip_word(text, b"align", tokens)?;
    alignment(text, rest)
}

fn is_node(text: &[u8], token: &Token) -> bool
    ensures { result ≡ is_node text.now token.now }
{
    is_kind(TokenKind::Meta, token) && names_node(spelled(text, token))
}

fn names_node(spelling: &[u8]) -> bool
    ensures { result ≡ names_node spelling.now }
{
    match spelling {
        [b'!'] => false,
        _ => !is_debug_node(spelling),
    }
}

/// A node of metadata; whether it has this name.
fn node<'b>(text: &[u8], name: &[u8], tokens: &'b [Token]) -> Result<(bool, &'b [Token]), Stop>
    ensures { Gives (λ x. valued x.0 x.1.now) result ((plain (node_is text.now name.now)).read tt tokens.now) }
{
    match tokens {
        [token, rest @ ..] if is_node(text, token) => Ok((spelled(text, token) == name, rest)),
        _ => Err(syntax(tokens)),
    }
}

fn marks(role: Role, kind: bool, node: bool) -> bool
    ensures { result ≡ marks role kind node }
{
    match role {
        Role::Source => false,
        Role::Part => kind && node,
    }
}

/// An attachment: its kind and its node; whether the partition made the instruction.
#[tactic(auto, unfolding(crate::specs::Ends::an_attachment))]
pub(crate) fn an_attachment<'b>(
    text: &[u8],
    role: Role,
    inserted: bool,
    tokens: &'b [Token],
) -> Result<(bool, &'b [Token]), Stop>
    ensures { Gives (λ x. valued x.0 x.1.now) result ((an_attachment text.now role inserted).read tt tokens.now) }
{
    let (kind, rest) = node(text, b"!no.x", tokens)?;
    let (node, rest) = node(text, b"!0", rest)?;
    Ok((inserted || marks(role, kind, node), rest))
}

/// What follows an instruction: whether an alignment may still stand, and whether the partition made the instruction.
#[derive(Clone, Copy, Debug, PartialEq, Eq)]
pub struct Ending {
    pub aligns: bool,
    pub inserted: bool,
}

/// Items behind commas, whether attachments have begun, and whether the partition made the instruction.
#[derive(Debug, Drop)]
pub struct Listed<T> {
    pub items: List<T>,
    pub begun: bool,
    pub inserted: bool,
}

#[tactic(auto, unfolding(crate::specs::Ends::end_alignment))]
fn end_alignment<'b>(
    text: &[u8],
    ending: Ending,
    tokens: &'b [Token],
) -> Result<(Ending, &'b [Token]), Stop>
    ensures { Gives (λ x. valued x.0 x.1.now) result ((end_alignment text.now ending).read tt tokens.now) }
{
    let (_, rest) = an_alignment(text, tokens)?;
    let ending = Ending {
        aligns: false,
        inserted: ending.inserted,
    };
    Ok((ending, rest))
}

#[tactic(auto, unfolding(crate::specs::Ends::end_attachment))]
fn end_attachment<'b>(
    text: &[u8],
    role: Role,
    ending: Ending,
    tokens: &'b [Token],
) -> Result<(Ending, &'b [Token]), Stop>
    ensures { Gives (λ x. valued x.0 x.1.now) result ((end_attachment text.now role ending).read tt tokens.now) }
{
    let (inserted, rest) = an_attachment(text, role, ending.inserted, tokens)?;
    let ending = Ending {
        aligns: false,
        inserted,
    };
    Ok((ending, rest))
}

#[tactic(auto, unfolding(crate::specs::Ends::end_step))]
fn end_step<'b>(
    text: &[u8],
    role: Role,
    ending: Ending,
    tokens: &'b [Token],
) -> Result<(Ending, &'b [Token]), Stop>
    ensures { Gives (λ x. valued x.0 x.1.now) result ((end_step text.now role ending).read tt tokens.now) }
{
    let rest = skip_sign(text, b",", tokens)?;
    match rest {
        [token, ..] if ending.aligns && is_word(text, b"align", token) => end_alignment(
            text, ending, rest,
        ),
        _ => end_attachment(text, role, ending, rest),
    }
}

/// Whether a comma stands first.
pub(crate) fn comma_next(text: &[u8], tokens: &[Token]) -> bool
    ensures { result ≡ next_is (is_comma text.now) tokens.now }
{
    match tokens {
        [token, ..] => is_sign(text, b",", token),
        [] => false,
    }
}

fn ends<'b>(
    text: &[u8],
    role: Role,
    start: Ending,
    tokens: &'b [Token],
) -> Result<(Ending, &'b [Token]), Stop>
    ensures { Gives (λ x. valued x.0 x.1.now) result (folded_all (is_comma text.now) (end_step text.now role) start tt tokens.now) }
{
    let mut ending = start;
    let mut rest = tokens;
    while comma_next(text, rest) {
        let (next, after) = end_step(text, role, ending, rest)?;
        ending = next;
        rest = after;
    }
    Ok((ending, rest))
}

/// What follows an operation: one alignment where it may have one, and attachments; whether the partition made the instruction.
#[tactic(auto, unfolding(crate::specs::Ends::end_mark))]
pub fn end_mark<'b>(
    text: &[u8],
    role: Role,
    aligns: bool,
    tokens: &'b [Token],
) -> Result<(bool, &'b [Token]), Stop>
    ensures { Gives (λ x. valued x.0 x.1.now) result ((end_mark text.now role aligns).read tt tokens.now) }
{
    let start = Ending {
        aligns,
        inserted: false,
    };
    let (ending, rest) = ends(text, role, start, tokens)?;
    Ok((ending.inserted, rest))
}

/// An operation, behind which the end was read.
fn ended<'b>(
    op: Op,
    end: Result<(bool, &'b [Token]), Stop>,
) -> Result<((Op, bool), &'b [Token]), Stop>
    ensures { (read : Result (Bool × Unit {0} × List Token) Stopped) (s : Locals) → Gives (λ x. valued x.0 x.1.now) end.entry read → Gives (λ x. (x.0, s, x.1.now)) result (after read (with_inserted op s)) }
{
    match end {
        Ok((inserted, rest)) => Ok(((op, inserted), rest)),
        Err(stop) => {
            drop(op);
            Err(stop)
        }
    }
}

/// The end of an instruction behind its operation: one alignment where it may have one, and attachments.
pub fn with_end<'b>(
    text: &[u8],
    role: Role,
    aligns: bool,
    form: Result<(Op, &'b [Token]), Stop>,
) -> Result<((Op, bool), &'b [Token]), Stop>
    ensures { (s : Locals) (read : Result (Op × Locals × List Token) Stopped) → Gives (λ x. (x.0, s, x.1.now)) form.entry read → Gives (λ x. (x.0, s, x.1.now)) result (after read (behind_form text.now role aligns)) }
{
    let (op, rest) = form?;
    ended(op, end_mark(text, role, aligns, rest))
}
