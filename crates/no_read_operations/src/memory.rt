ghost use Rattle.std.specs.Prelude.{◌≡◌, true, false, codes};
ghost use Rattle.no_ir.specs.declared.instruction.Operand.{Operand};
ghost use Rattle.no_read_rules.specs.Rules.{Gives};
ghost use Rattle.no_read_rules.specs.Scope.{Meaning, seen};
ghost use Rattle.no_read_registers.specs.declared.locals.Locals.{Locals};
ghost use Rattle.no_read_operations.specs.Folded.{folded_all};
ghost use Rattle.no_read_operations.specs.Operands.{sized_operand};
ghost use Rattle.no_read_operations.specs.Ends.{is_comma};
ghost use Rattle.no_read_operations.specs.Memory.{load_parts, volatile_load, load, store_parts, volatile_store, store, all_indices, address_parts, address, stated_alignment, stated_count, alloca_attachment, count_or_attachment, alloca_step, alloca_start, alloca};

use crate::ends::{Listed, an_alignment, an_attachment, comma_next};
use crate::lists::{Item, some_listed};
use crate::operands::{comma_pointer, sized_operand, some_type, typed_operand};
use no_ir::{List, Op, Operand, Role};
use no_lex::{Token, TokenKind};
use no_read_constants::skip_flags;
use no_read_registers::Locals;
use no_read_rules::{Scope, Stop, is_kind, is_word, skip_sign, skip_word};
use std::alloc::Global;

#[tactic(auto, using(crate::proofs::Grouped::load_is))]
fn load_parts<'b>(
    alloc: Global,
    scope: &Scope,
    locals: &mut Locals,
    volatile: bool,
    tokens: &'b [Token],
) -> Result<(Op, &'b [Token]), Stop>
    ensures { Gives (λ x. (x.0, locals.new, x.1.now)) result ((load_parts (seen scope.now) volatile).read locals.old tokens.now) }
{
    let (of, rest) = some_type(alloc, scope, tokens)?;
    let (place, rest) = comma_pointer(alloc, scope, locals, rest)?;
    Ok((Op::Load(volatile, of, place), rest))
}

/// Behind `load`: an optional `volatile`, and `T, ptr p`.
#[tactic(auto, unfolding(crate::specs::Memory::volatile_load))]
pub fn load<'b>(
    alloc: Global,
    scope: &Scope,
    locals: &mut Locals,
    tokens: &'b [Token],
) -> Result<(Op, &'b [Token]), Stop>
    ensures { Gives (λ x. (x.0, locals.new, x.1.now)) result ((load (seen scope.now)).read locals.old tokens.now) }
{
    match tokens {
        [token, rest @ ..] if is_word(scope.text, b"volatile", token) => load_parts(
            alloc, scope, locals, true, rest,
        ),
        _ => load_parts(alloc, scope, locals, false, tokens),
    }
}

#[tactic(auto, using(crate::proofs::Grouped::store_is))]
fn store_parts<'b>(
    alloc: Global,
    scope: &Scope,
    locals: &mut Locals,
    volatile: bool,
    tokens: &'b [Token],
) -> Result<(Op, &'b [Token]), Stop>
    ensures { Gives (λ x. (x.0, locals.new, x.1.now)) result ((store_parts (seen scope.now) volatile).read locals.old tokens.now) }
{
    let ((of, value), rest) = typed_operand(alloc, scope, locals, tokens)?;
    let (place, rest) = comma_pointer(alloc, scope, locals, rest)?;
    Ok((Op::Store(volatile, of, value, place), rest))
}

/// Behind `store`: an optional `volatile`, and `T v, ptr p`.
#[tactic(auto, unfolding(crate::specs::Memory::volatile_store))]
pub fn store<'b>(
    alloc: Global,
    scope: &Scope,
    locals: &mut Locals,
    tokens: &'b [Token],
) -> Result<(Op, &'b [Token]), Stop>
    ensures { Gives (λ x. (x.0, locals.new, x.1.now)) result ((store (seen scope.now)).read locals.old tokens.now) }
{
    match tokens {
        [token, rest @ ..] if is_word(scope.text, b"volatile", token) => store_parts(
            alloc, scope, locals, true, rest,
        ),
        _ => store_parts(alloc, scope, locals, false, tokens),
    }
}

// ---- `getelementptr`

/// The indices of an address.
#[derive(Drop)]
struct Indices;

impl Item for Indices {
    type Of = (u8, Operand);

    ghost rule = { λ _ m. sized_operand m };

    fn item<'b>(
        &self,
        alloc: Global,
        scope: &Scope,
        locals: &mut Locals,
        tokens: &'b [Token],
    ) -> Result<((u8, Operand), &'b [Token]), Stop> {
        sized_operand(alloc, scope, locals, tokens)
    }
}

/// Behind a comma: at least one index, and attachments.
#[tactic(auto, using(crate::proofs::FormLaws::sized_solid), unfolding(crate::specs::Memory::all_indices))]
fn all_indices<'b>(
    alloc: Global,
    scope: &Scope,
    role: Role,
    locals: &mut Locals,
    tokens: &'b [Token],
) -> Result<(Listed<(u8, Operand)>, &'b [Token]), Stop>
    ensures { Gives (λ x. (x.0, locals.new, x.1.now)) result ((all_indices (seen scope.now) role).read locals.old tokens.now) }
{
    let rest = skip_sign(scope.text, b",", tokens)?;
    some_listed(alloc, scope, role, locals, &Indices, rest)
}

#[tactic(auto, using(crate::proofs::Grouped::address_is))]
fn address_parts<'b>(
    alloc: Global,
    scope: &Scope,
    role: Role,
    locals: &mut Locals,
    tokens: &'b [Token],
) -> Result<((Op, bool), &'b [Token]), Stop>
    ensures { Gives (λ x. (x.0, locals.new, x.1.now)) result ((address_parts (seen scope.now) role).read locals.old tokens.now) }
{
    let (base, rest) = some_type(alloc, scope, tokens)?;
    let (place, rest) = comma_pointer(alloc, scope, locals, rest)?;
    let (all, rest) = all_indices(alloc, scope, role, locals, rest)?;
    let Listed {
        items,
        inserted,
        ..
    } = all;
    Ok(((Op::Gep(base, place, items), inserted), rest))
}

/// Behind `getelementptr`: `T, ptr p`, at least one index `, iN x`, and attachments; whether the partition made the instruction.
pub fn address<'b>(
    alloc: Global,
    scope: &Scope,
    role: Role,
    locals: &mut Locals,
    tokens: &'b [Token],
) -> Result<((Op, bool), &'b [Token]), Stop>
    ensures { Gives (λ x. (x.0, locals.new, x.1.now)) result ((address (seen scope.now) role).read locals.old tokens.now) }
{
    address_parts(alloc, scope, role, locals, skip_flags(scope.text, tokens))
}

// ---- `alloca`

/// What has been read behind the type of an `alloca`: whether a count and an alignment may still stand, and what there is.
#[derive(Debug, Drop)]
pub struct AllocaEnd {
    pub counts: bool,
    pub aligns: bool,
    pub count: Option<(u8, Operand)>,
    pub align: Option<u32>,
    pub inserted: bool,
}

#[tactic(auto, unfolding(crate::specs::Memory::stated_alignment))]
fn stated_alignment<'b>(
    text: &[u8],
    end: AllocaEnd,
    tokens: &'b [Token],
) -> Result<(AllocaEnd, &'b [Token]), Stop>
    ensures { (s : Locals) → Gives (λ x. (x.0, s, x.1.now)) result ((stated_alignment text.now end).read s tokens.now) }
{
    let (align, rest) = an_alignment(text, tokens)?;
    let end = AllocaEnd {
        counts: false,
        aligns: false,
        align: Some(align),
        ..end
    };
    Ok((end, rest))
}

#[tactic(auto, unfolding(crate::specs::Memory::stated_count))]
fn stated_count<'b>(
    alloc: Global,
    scope: &Scope,
    locals: &mut Locals,
    end: AllocaEnd,
    tokens: &'b [Token],
) -> Result<(AllocaEnd, &'b [Token]), Stop>
    ensures { Gives (λ x. (x.0, locals.new, x.1.now)) result ((stated_count (seen scope.now) end).read locals.old tokens.now) }
{
    let AllocaEnd {
        aligns,
        align,
        inserted,
        ..
    } = end;
    let (count, rest) = sized_operand(alloc, scope, locals, tokens)?;
    let end = AllocaEnd {
        counts: false,
        aligns,
        count: Some(count),
        align,
        inserted,
    };
    Ok((end, rest))
}

#[tactic(auto, unfolding(crate::specs::Memory::alloca_attachment))]
fn alloca_attachment<'b>(
    text: &[u8],
    role: Role,
    end: AllocaEnd,
    tokens: &'b [Token],
) -> Result<(AllocaEnd, &'b [Token]), Stop>
    ensures { (s : Locals) → Gives (λ x. (x.0, s, x.1.now)) result ((alloca_attachment text.now role end).read s tokens.now) }
{
    let (inserted, rest) = an_attachment(text, role, end.inserted, tokens)?;
    let end = AllocaEnd {
        counts: false,
        aligns: false,
        inserted,
        ..end
    };
    Ok((end, rest))
}

fn count_or_attachment<'b>(
    alloc: Global,
    scope: &Scope,
    role: Role,
    locals: &mut Locals,
    end: AllocaEnd,
    tokens: &'b [Token],
) -> Result<(AllocaEnd, &'b [Token]), Stop>
    ensures { Gives (λ x. (x.0, locals.new, x.1.now)) result ((count_or_attachment (seen scope.now) role end).read locals.old tokens.now) }
{
    match tokens {
        [token, ..] if end.counts && !is_kind(TokenKind::Meta, token) => stated_count(
            alloc, scope, locals, end, tokens,
        ),
        _ => alloca_attachment(scope.text, role, end, tokens),
    }
}

#[tactic(auto, unfolding(crate::specs::Memory::alloca_step))]
fn alloca_step<'b>(
    alloc: Global,
    scope: &Scope,
    role: Role,
    locals: &mut Locals,
    end: AllocaEnd,
    tokens: &'b [Token],
) -> Result<(AllocaEnd, &'b [Token]), Stop>
    ensures { Gives (λ x. (x.0, locals.new, x.1.now)) result ((alloca_step (seen scope.now) role end).read locals.old tokens.now) }
{
    let rest = skip_sign(scope.text, b",", tokens)?;
    match rest {
        [token, ..] if end.aligns && is_word(scope.text, b"align", token) => stated_alignment(
            scope.text, end, rest,
        ),
        _ => count_or_attachment(alloc, scope, role, locals, end, rest),
    }
}

fn alloca_ends<'b>(
    alloc: Global,
    scope: &Scope,
    role: Role,
    locals: &mut Locals,
    tokens: &'b [Token],
) -> Result<(AllocaEnd, &'b [Token]), Stop>
    ensures { Gives (λ x. (x.0, locals.new, x.1.now)) result (folded_all (is_comma (seen scope.now).text) (alloca_step (seen scope.now) role) alloca_start locals.old tokens.now) }
{
    let mut end = AllocaEnd {
        counts: true,
        aligns: true,
        count: None,
        align: None,
        inserted: false,
    };
    let mut rest = tokens;
    while comma_next(scope.text, rest) {
        let (next, after) = alloca_step(alloc, scope, role, locals, end, rest)?;
        end = next;
        rest = after;
    }
    Ok((end, rest))
}

/// Behind `alloca`: `T`, an optional `, iN n` and an optional `, align A`, and attachments; whether the partition made the instruction.
#[tactic(auto, unfolding(crate::specs::Memory::alloca))]
pub fn alloca<'b>(
    alloc: Global,
    scope: &Scope,
    role: Role,
    locals: &mut Locals,
    tokens: &'b [Token],
) -> Result<((Op, bool), &'b [Token]), Stop>
    ensures { Gives (λ x. (x.0, locals.new, x.1.now)) result ((alloca (seen scope.now) role).read locals.old tokens.now) }
{
    let (of, rest) = some_type(alloc, scope, tokens)?;
    let (end, rest) = alloca_ends(alloc, scope, role, locals, rest)?;
    let AllocaEnd {
        count,
        align,
        inserted,
        ..
    } = end;
    Ok(((Op::Alloca(of, count, align), inserted), rest))
}
