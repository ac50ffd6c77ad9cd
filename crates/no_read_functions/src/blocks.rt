ghost use Rattle.std.specs.Prelude.{◌≡◌, List, []};
ghost use Rattle.no_lex.specs.declared.token.Token.{Token};
ghost use Rattle.no_ir.specs.declared.function.Block.{Block};
ghost use Rattle.no_ir.specs.declared.function.Role.{Role};
ghost use Rattle.no_read_rules.specs.Repeated.{repeat_all};
ghost use Rattle.no_read_rules.specs.Rules.{Gives, none, Good};
ghost use Rattle.no_read_rules.specs.Scope.{Meaning, seen};
ghost use Rattle.no_read_registers.specs.declared.locals.Locals.{Locals};
ghost use Rattle.no_read_instructions.specs.Instructions.{an_instr, instr_goes_on};
ghost use Rattle.no_read_functions.specs.Blocks.{closing, label_piece, instr_piece, a_piece, labelled, unlabelled, entry, with_open, body};

use no_ir::{Block, Instr, List, Role};
use no_lex::{Token, TokenKind};
use no_read_instructions::an_instr;
use no_read_registers::{Locals, a_block_label, no_block_label};
use no_read_rules::{Scope, Stop, is_kind, is_sign};
use std::alloc::Global;

/// What stands in the body of a function.
#[derive(Debug, Drop)]
pub enum Piece {
    /// The label of a block, by number.
    Label(u32),
    Instr(Instr),
}

#[tactic(auto, unfolding(crate::specs::Blocks::label_piece))]
fn label_piece<'b>(
    alloc: Global,
    text: &[u8],
    locals: &mut Locals,
    tokens: &'b [Token],
) -> Result<(Option<Piece>, &'b [Token]), Stop>
    ensures { Gives (λ x. (x.0, locals.new, x.1.now)) result ((label_piece text.now).read locals.old tokens.now) }
{
    let (label, rest) = a_block_label(alloc, text, locals, tokens)?;
    Ok((Some(Piece::Label(label)), rest))
}

#[tactic(auto, unfolding(crate::specs::Blocks::instr_piece))]
fn instr_piece<'b>(
    alloc: Global,
    scope: &Scope,
    role: Role,
    locals: &mut Locals,
    tokens: &'b [Token],
) -> Result<(Option<Piece>, &'b [Token]), Stop>
    ensures { Gives (λ x. (x.0, locals.new, x.1.now)) result ((instr_piece (an_instr (seen scope.now) role)).read locals.old tokens.now) }
{
    let (instr, rest) = an_instr(alloc, scope, role, locals, tokens)?;
    Ok((Some(Piece::Instr(instr)), rest))
}

/// A label, an instruction, or nothing where the body closes.
#[tactic(auto, unfolding(crate::specs::Blocks::a_piece, crate::specs::Blocks::closing))]
fn a_piece<'b>(
    alloc: Global,
    scope: &Scope,
    role: Role,
    locals: &mut Locals,
    tokens: &'b [Token],
) -> Result<(Option<Piece>, &'b [Token]), Stop>
    ensures { Gives (λ x. (x.0, locals.new, x.1.now)) result ((a_piece (seen scope.now).text (an_instr (seen scope.now) role)).read locals.old tokens.now) }
{
    match tokens {
        [token, rest @ ..] if is_sign(scope.text, b"}", token) => Ok((None, rest)),
        [token, ..] if is_kind(TokenKind::Label, token) => label_piece(
            alloc, scope.text, locals, tokens,
        ),
        _ => instr_piece(alloc, scope, role, locals, tokens),
    }
}

#[tactic(auto, unfolding(crate::specs::Blocks::labelled))]
fn labelled<'b>(
    alloc: Global,
    text: &[u8],
    locals: &mut Locals,
    tokens: &'b [Token],
) -> Result<((u32, List<Instr>), &'b [Token]), Stop>
    ensures { Gives (λ x. (x.0, locals.new, x.1.now)) result ((labelled text.now).read locals.old tokens.now) }
{
    let (label, rest) = a_block_label(alloc, text, locals, tokens)?;
    Ok(((label, List::new(alloc)), rest))
}

#[tactic(auto, unfolding(crate::specs::Blocks::unlabelled))]
fn unlabelled<'b>(
    alloc: Global,
    scope: &Scope,
    role: Role,
    locals: &mut Locals,
    tokens: &'b [Token],
) -> Result<((u32, List<Instr>), &'b [Token]), Stop>
    ensures { Gives (λ x. (x.0, locals.new, x.1.now)) result ((unlabelled (an_instr (seen scope.now) role)).read locals.old tokens.now) }
{
    let label = no_block_label(alloc, locals, tokens)?;
    let (first, rest) = an_instr(alloc, scope, role, locals, tokens)?;
    let mut instrs = List::new(alloc);
    instrs.push(first)?;
    Ok(((label, instrs), rest))
}

/// The label of the first block, and its first instruction where no label is written.
#[tactic(auto, unfolding(crate::specs::Blocks::entry))]
fn entry<'b>(
    alloc: Global,
    scope: &Scope,
    role: Role,
    locals: &mut Locals,
    tokens: &'b [Token],
) -> Result<((u32, List<Instr>), &'b [Token]), Stop>
    ensures { Gives (λ x. (x.0, locals.new, x.1.now)) result ((entry (seen scope.now).text (an_instr (seen scope.now) role)).read locals.old tokens.now) }
{
    match tokens {
        [token, ..] if is_kind(TokenKind::Label, token) => labelled(
            alloc, scope.text, locals, tokens,
        ),
        _ => unlabelled(alloc, scope, role, locals, tokens),
    }
}

/// The rest of the open block, and the blocks behind it.
fn more_blocks<'b>(
    alloc: Global,
    scope: &Scope,
    role: Role,
    first: (u32, List<Instr>),
    locals: &mut Locals,
    tokens: &'b [Token],
) -> Result<(List<Block>, &'b [Token]), Stop>
    ensures { Gives (λ x. (x.0, locals.new, x.1.now)) result (with_open [] first.0 first.1 (repeat_all (a_piece (seen scope.now).text (an_instr (seen scope.now) role)) locals.old tokens.now)) }
{
    let (label, instrs) = first;
    let mut all = List::new(alloc);
    let mut open = Block { label, instrs };
    let mut rest = tokens;
    loop {
        let (piece, after) = a_piece(alloc, scope, role, locals, rest)?;
        match piece {
            None => {
                all.push(open)?;
                return Ok((all, after));
            }
            Some(Piece::Label(label)) => {
                all.push(open)?;
                open = Block {
                    label,
                    instrs: List::new(alloc),
                };
                rest = after;
            }
            Some(Piece::Instr(instr)) => {
                open.instrs.push(instr)?;
                rest = after;
            }
        }
    }
}

/// The blocks of a function and the bracket that closes them, behind the bracket that opens them.
///
/// A block begins at the opening bracket or at a label. The first may have none: it then has the next number as its label and
/// begins with an instruction. Syntax comes at the first token that begins no instruction, Number at a label that isn't from 0 to
/// 2^32 - 1, and both as instructions say.
#[tactic(auto, unfolding(crate::specs::Blocks::body))]
pub fn body<'b>(
    alloc: Global,
    scope: &Scope,
    role: Role,
    locals: &mut Locals,
    tokens: &'b [Token],
) -> Result<(List<Block>, &'b [Token]), Stop>
    ensures { Gives (λ x. (x.0, locals.new, x.1.now)) result ((body (seen scope.now).text (an_instr (seen scope.now) role)).read locals.old tokens.now) }
{
    let (first, rest) = entry(alloc, scope, role, locals, tokens)?;
    more_blocks(alloc, scope, role, first, locals, rest)
}

/// Bodies are read exactly: what was read is meant by the tokens that were taken, whatever follows, and what tokens mean is read from
/// them.
#[tactic(auto, using(crate::proofs::BodyLaws::body_good))]
pub fn blocks_are_exact()
    ensures { (m : Meaning) (role : Role) → Good none (body m.text (an_instr m role)) }
{}

/// At most one list of blocks is meant by a list of tokens.
#[tactic(auto, using(crate::proofs::BodyLaws::one_body))]
pub fn at_most_one_body()
    ensures { (m : Meaning) (role : Role) (s t u : Locals) (tokens : List Token) (a b : List Block) → (body m.text (an_instr m role)).means s tokens a t → (body m.text (an_instr m role)).means s tokens b u → a ≡ b }
{}
