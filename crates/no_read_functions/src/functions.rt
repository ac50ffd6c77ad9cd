ghost use Rattle.std.specs.Prelude.{◌≡◌};
ghost use Rattle.no_read_rules.specs.Rules.{Gives, valued};
ghost use Rattle.no_read_rules.specs.Scope.{seen};
ghost use Rattle.no_read_registers.specs.Numbered.{no_locals_yet};
ghost use Rattle.no_read_attributes.specs.Own.{inside};
ghost use Rattle.no_read_functions.specs.Functions.{head_body, a_function};

use crate::blocks::body;
use crate::heads::{Head, a_head};
use no_ir::{Block, List, Role};
use no_lex::Token;
use no_read_registers::Locals;
use no_read_rules::{Scope, Stop, skip_sign};
use std::alloc::Global;

/// A function as it is written: its head, its blocks, none where it is declared, and the names of its registers and labels.
#[derive(Drop)]
pub struct Written {
    pub head: Head,
    pub blocks: List<Block>,
    pub names: Locals,
}

/// A head, and the blocks in brackets behind it.
#[tactic(auto, unfolding(crate::specs::Functions::head_body))]
fn head_body<'b>(
    alloc: Global,
    scope: &Scope,
    role: Role,
    locals: &mut Locals,
    tokens: &'b [Token],
) -> Result<((Head, List<Block>), &'b [Token]), Stop>
    ensures { Gives (λ x. (x.0, locals.new, x.1.now)) result ((head_body (seen scope.now) role).read locals.old tokens.now) }
{
    let (head, rest) = a_head(alloc, scope, role, true, locals, tokens)?;
    let rest = skip_sign(scope.text, b"{", rest)?;
    let (blocks, rest) = body(alloc, scope, role, locals, rest)?;
    Ok(((head, blocks), rest))
}

/// The same with names of its own.
fn own_names<'b>(
    alloc: Global,
    scope: &Scope,
    role: Role,
    tokens: &'b [Token],
) -> Result<(((Head, List<Block>), Locals), &'b [Token]), Stop>
    ensures { Gives (λ x. valued x.0 x.1.now) result ((inside no_locals_yet (head_body (seen scope.now) role)).read tt tokens.now) }
{
    let mut locals = Locals::new(alloc)?;
    let (parts, rest) = head_body(alloc, scope, role, &mut locals, tokens)?;
    Ok(((parts, locals), rest))
}

/// Behind `define`: a head with the names of its parameters, and the blocks in brackets.
///
/// Syntax, LeftOut and Number come as heads and blocks say, and Syntax where no bracket stands between them.
#[tactic(auto, unfolding(crate::specs::Functions::a_function))]
pub fn a_function<'b>(
    alloc: Global,
    scope: &Scope,
    role: Role,
    tokens: &'b [Token],
) -> Result<(Written, &'b [Token]), Stop>
    ensures { Gives (λ x. valued x.0 x.1.now) result ((a_function (seen scope.now) role).read tt tokens.now) }
{
    let (((head, blocks), names), rest) = own_names(alloc, scope, role, tokens)?;
    let written = Written {
        head,
        blocks,
        names,
    };
    Ok((written, rest))
}
