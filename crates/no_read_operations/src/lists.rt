ghost use Rattle.std.specs.Prelude.{◌≡◌};
ghost use Rattle.no_ir.specs.declared.instruction.Operand.{Operand};
ghost use Rattle.no_read_rules.specs.Rules.{Rule, Good, IsSolid, Gives, none};
ghost use Rattle.no_read_rules.specs.Scope.{Meaning, seen};
ghost use Rattle.no_read_registers.specs.declared.locals.Locals.{Locals};
ghost use Rattle.no_read_operations.specs.Folded.{folded_all};
ghost use Rattle.no_read_operations.specs.Ends.{is_comma, list_item, list_attachment, list_step, some_listed};

use crate::ends::{Listed, an_attachment, comma_next};
use no_ir::{List, Role};
use no_lex::{Token, TokenKind};
use no_read_registers::Locals;
use no_read_rules::{Scope, Stop, is_kind, skip_sign};
use std::alloc::Global;

/// What the items of a list behind commas are.
pub(crate) trait Item {
    /// One item.
    type Of: Drop;

    ghost rule: { Self → Meaning → Rule Locals Self.Of };

    /// The first item of these tokens.
    fn item<'b>(
        &self,
        alloc: Global,
        scope: &Scope,
        locals: &mut Locals,
        tokens: &'b [Token],
    ) -> Result<(Self::Of, &'b [Token]), Stop>
        ensures { Gives (λ x. (x.0, locals.new, x.1.now)) result ((rule self.now (seen scope.now)).read locals.old tokens.now) };
}

/// An attachment behind items.
#[tactic(auto, unfolding(crate::specs::Ends::list_attachment))]
fn list_attachment<'b, T: Drop>(
    text: &[u8],
    role: Role,
    listed: Listed<T>,
    tokens: &'b [Token],
) -> Result<(Listed<T>, &'b [Token]), Stop>
    ensures { (s : Locals) → Gives (λ x. (x.0, s, x.1.now)) result ((list_attachment text.now role listed).read s tokens.now) }
{
    let Listed {
        items,
        inserted,
        ..
    } = listed;
    let (inserted, rest) = an_attachment(text, role, inserted, tokens)?;
    let listed = Listed {
        items,
        begun: true,
        inserted,
    };
    Ok((listed, rest))
}

#[tactic(auto, unfolding(crate::specs::Ends::list_item))]
fn list_item<'b, I: Item>(
    alloc: Global,
    scope: &Scope,
    locals: &mut Locals,
    kind: &I,
    listed: Listed<I::Of>,
    tokens: &'b [Token],
) -> Result<(Listed<I::Of>, &'b [Token]), Stop>
    ensures { Gives (λ x. (x.0, locals.new, x.1.now)) result ((list_item (I.rule kind.now (seen scope.now)) listed).read locals.old tokens.now) }
{
    let Listed {
        mut items,
        inserted,
        ..
    } = listed;
    let (item, rest) = kind.item(alloc, scope, locals, tokens)?;
    items.push(item)?;
    let listed = Listed {
        items,
        begun: false,
        inserted,
    };
    Ok((listed, rest))
}

#[tactic(auto, unfolding(crate::specs::Ends::list_step))]
fn list_step<'b, I: Item>(
    alloc: Global,
    scope: &Scope,
    role: Role,
    locals: &mut Locals,
    kind: &I,
    listed: Listed<I::Of>,
    tokens: &'b [Token],
) -> Result<(Listed<I::Of>, &'b [Token]), Stop>
    ensures { Gives (λ x. (x.0, locals.new, x.1.now)) result ((list_step (seen scope.now).text role (I.rule kind.now (seen scope.now)) listed).read locals.old tokens.now) }
{
    let rest = skip_sign(scope.text, b",", tokens)?;
    match rest {
        [token, ..] if !listed.begun && !is_kind(TokenKind::Meta, token) => list_item(
            alloc, scope, locals, kind, listed, rest,
        ),
        _ => list_attachment(scope.text, role, listed, rest),
    }
}

fn list_behind<'b, I: Item>(
    alloc: Global,
    scope: &Scope,
    role: Role,
    locals: &mut Locals,
    kind: &I,
    start: Listed<I::Of>,
    tokens: &'b [Token],
) -> Result<(Listed<I::Of>, &'b [Token]), Stop>
    requires good { Good none (I.rule kind.now (seen scope.now)) }
    requires solid { IsSolid (I.rule kind.now (seen scope.now)) }
    ensures { Gives (λ x. (x.0, locals.new, x.1.now)) result (folded_all (is_comma (seen scope.now).text) (list_step (seen scope.now).text role (I.rule kind.now (seen scope.now))) start locals.old tokens.now) }
{
    let mut listed = start;
    let mut rest = tokens;
    while comma_next(scope.text, rest) {
        let (next, after) = list_step(alloc, scope, role, locals, kind, listed, rest)?;
        listed = next;
        rest = after;
    }
    Ok((listed, rest))
}

/// At least one item, and attachments.
#[tactic(auto, unfolding(crate::specs::Ends::some_listed))]
pub(crate) fn some_listed<'b, I: Item>(
    alloc: Global,
    scope: &Scope,
    role: Role,
    locals: &mut Locals,
    kind: &I,
    tokens: &'b [Token],
) -> Result<(Listed<I::Of>, &'b [Token]), Stop>
    requires good { Good none (I.rule kind.now (seen scope.now)) }
    requires solid { IsSolid (I.rule kind.now (seen scope.now)) }
    ensures { Gives (λ x. (x.0, locals.new, x.1.now)) result ((some_listed (seen scope.now).text role (I.rule kind.now (seen scope.now))).read locals.old tokens.now) }
{
    let (first, rest) = kind.item(alloc, scope, locals, tokens)?;
    let mut items = List::new(alloc);
    items.push(first)?;
    let start = Listed {
        items,
        begun: false,
        inserted: false,
    };
    list_behind(alloc, scope, role, locals, kind, start, rest)
}
