ghost use Rattle.std.specs.Prelude.{ℕ, List, ◌≡◌, ◌<◌, ◌-◌, ◌^◌, ◌∷◌, [], codes, drop};
ghost use Rattle.no_read_rules.specs.Lists.{more_item, some_items, items};
ghost use Rattle.no_read_rules.specs.Repeated.{repeat_all, with_front};
ghost use Rattle.no_read_rules.specs.Rules.{none, Good, Gives, valued, passed, plain, checked};
ghost use Rattle.no_read_rules.specs.Scope.{Meaning, seen};
ghost use Rattle.no_read_rules.specs.Types.{a_type, must_be};
ghost use Rattle.no_read_constants.specs.Constants.{named_in, flat_const, bracket_const, shape_of, element_in, fields_in, zero_at, null_at, word_at, word_const, integer_in, as_leaf, leaf_by, leaf_head, const_by, const_head, bracket_at, text_of, ptr_to_int, int_to_ptr, after_leaf, address, member, next_field, more_fields, some_fields, fields, array_const, struct_const, packed_const, after_head, a_const};
ghost use Rattle.no_ir.specs.declared.constant.Const.{Const};
ghost use Rattle.no_ir.specs.declared.types.Ty.{Ty, out-Ty};
ghost use Rattle.no_lex.specs.declared.token.Token.{Token};

use crate::places::{a_place, begins_place, number_at, truth_at, width_of};
use no_ir::{Const, List, Ty};
use no_lex::{Token, TokenKind};
use no_module::same_type;
use no_read_rules::{
    Flaw, Scope, Stop, a_type, closes_list, fault_at, integer_at, is_kind, is_sign, skip_sign,
    skip_word, spelled, syntax, unescaped_inner,
};
use sqlite_items::at;
use std::alloc::Global;

/// What a type is, as far as constants at it are concerned.
#[derive(Clone, Copy, Debug, PartialEq, Eq)]
pub enum Shape {
    Int(u8),
    Ptr,
    Array,
    Struct,
    Other,
}

/// What a constant without brackets begins with.
#[derive(Clone, Copy, Debug, PartialEq, Eq)]
pub enum LeafHead {
    Zero,
    Int(u64),
    /// The mark before a string.
    Text,
    PtrToInt,
    IntToPtr,
}

/// What a constant begins with.
#[derive(Clone, Copy, Debug, PartialEq, Eq)]
pub enum ConstHead {
    Leaf(LeafHead),
    Array,
    Struct,
    Packed,
}

/// What a named type names, and another type itself.
fn resolved<'a>(types: &'a [Ty], ty: &'a Ty) -> &'a Ty
    ensures { result.now ≡ named_in ty.now types.now (out-Ty ty.now) }
{
    match ty {
        Ty::Named(number) => match at(types, *number as usize) {
            Some(named) => named,
            None => ty,
        },
        _ => ty,
    }
}

fn shape_of(ty: &Ty) -> Shape
    ensures { result ≡ shape_of ty.now }
{
    match ty {
        Ty::Int(width) => Shape::Int(*width),
        Ty::Ptr => Shape::Ptr,
        Ty::Array(_, _) => Shape::Array,
        Ty::Struct(_, _) => Shape::Struct,
        Ty::Void | Ty::Named(_) => Shape::Other,
    }
}

fn zero_at(shape: Shape) -> LeafHead
    ensures { result ≡ zero_at shape }
{
    match shape {
        Shape::Int(_) => LeafHead::Int(0),
        _ => LeafHead::Zero,
    }
}

fn word_at(shape: Shape, word: &[u8]) -> Result<LeafHead, Flaw>
    ensures { result ≡ word_at shape word.now }
{
    match shape {
        Shape::Int(width) => match truth_at(width, word) {
            Ok(number) => Ok(LeafHead::Int(number)),
            Err(flaw) => Err(flaw),
        },
        _ => Err(Flaw::Syntax),
    }
}

fn null_at(shape: Shape) -> Result<LeafHead, Flaw>
    ensures { result ≡ null_at shape }
{
    match shape {
        Shape::Ptr => Ok(LeafHead::Zero),
        _ => Err(Flaw::Syntax),
    }
}

fn word_const(shape: Shape, word: &[u8]) -> Result<LeafHead, Flaw>
    ensures { result ≡ word_const shape word.now }
{
    if word == b"undef".as_slice() {
        Ok(zero_at(shape))
    } else if word == b"poison".as_slice() {
        Ok(zero_at(shape))
    } else if word == b"zeroinitializer".as_slice() {
        Ok(zero_at(shape))
    } else if word == b"null".as_slice() {
        null_at(shape)
    } else if word == b"ptrtoint".as_slice() {
        Ok(LeafHead::PtrToInt)
    } else if word == b"inttoptr".as_slice() {
        Ok(LeafHead::IntToPtr)
    } else {
        word_at(shape, word)
    }
}

fn integer_in(shape: Shape, spelling: &[u8]) -> Result<LeafHead, Flaw>
    ensures { result ≡ integer_in shape spelling.now }
{
    match shape {
        Shape::Int(width) => match integer_at(width, spelling) {
            Ok(number) => Ok(LeafHead::Int(number)),
            Err(flaw) => Err(flaw),
        },
        _ => Err(Flaw::Syntax),
    }
}

fn leaf_by(shape: Shape, kind: TokenKind, spelling: &[u8]) -> Result<LeafHead, Flaw>
    ensures { result ≡ leaf_by shape kind spelling.now }
{
    match kind {
        TokenKind::Word => word_const(shape, spelling),
        TokenKind::Integer => integer_in(shape, spelling),
        TokenKind::CMark => Ok(LeafHead::Text),
        _ => Err(Flaw::Syntax),
    }
}

fn bracket_at(shape: Shape, sign: &[u8]) -> Result<ConstHead, Flaw>
    ensures { result ≡ bracket_at shape sign.now }
{
    match shape {
        Shape::Array => match sign {
            b"[" => Ok(ConstHead::Array),
            _ => Err(Flaw::Syntax),
        },
        Shape::Struct => match sign {
            b"{" => Ok(ConstHead::Struct),
            b"<" => Ok(ConstHead::Packed),
            _ => Err(Flaw::Syntax),
        },
        _ => Err(Flaw::Syntax),
    }
}

fn as_leaf(head: Result<LeafHead, Flaw>) -> Result<ConstHead, Flaw>
    ensures { result ≡ as_leaf head }
{
    match head {
        Ok(leaf) => Ok(ConstHead::Leaf(leaf)),
        Err(flaw) => Err(flaw),
    }
}

fn const_by(shape: Shape, kind: TokenKind, spelling: &[u8]) -> Result<ConstHead, Flaw>
    ensures { result ≡ const_by shape kind spelling.now }
{
    match kind {
        TokenKind::Sign => bracket_at(shape, spelling),
        _ => as_leaf(leaf_by(shape, kind, spelling)),
    }
}

fn leaf_head<'b>(
    scope: &Scope,
    shape: Shape,
    tokens: &'b [Token],
) -> Result<(LeafHead, &'b [Token]), Stop>
    ensures { Gives (λ x. valued x.0 x.1.now) result ((plain (leaf_head (seen scope.now).text shape)).read tt tokens.now) }
{
    match tokens {
        [] => Err(syntax(tokens)),
        [token, rest @ ..] => match leaf_by(shape, token.kind, spelled(scope.text, token)) {
            Ok(head) => Ok((head, rest)),
            Err(flaw) => Err(fault_at(flaw, tokens)),
        },
    }
}

fn const_head<'b>(
    scope: &Scope,
    shape: Shape,
    tokens: &'b [Token],
) -> Result<(ConstHead, &'b [Token]), Stop>
    ensures { Gives (λ x. valued x.0 x.1.now) result ((plain (const_head (seen scope.now).text shape)).read tt tokens.now) }
{
    match tokens {
        [] => Err(syntax(tokens)),
        [token, rest @ ..] => match const_by(shape, token.kind, spelled(scope.text, token)) {
            Ok(head) => Ok((head, rest)),
            Err(flaw) => Err(fault_at(flaw, tokens)),
        },
    }
}

// ---- constants without brackets

fn text_of<'b>(
    alloc: Global,
    scope: &Scope,
    tokens: &'b [Token],
) -> Result<(Const, &'b [Token]), Stop>
    ensures { Gives (λ x. valued x.0 x.1.now) result ((plain (text_of (seen scope.now).text)).read tt tokens.now) }
{
    match tokens {
        [token, rest @ ..] if is_kind(TokenKind::Quoted, token) => {
            let bytes = unescaped_inner(alloc, spelled(scope.text, token))?;
            Ok((Const::Str(bytes), rest))
        }
        _ => Err(syntax(tokens)),
    }
}

/// A type that has to be this one.
fn this_type<'b>(
    alloc: Global,
    scope: &Scope,
    want: &Ty,
    depth: u32,
    tokens: &'b [Token],
) -> Result<&'b [Token], Stop>
    ensures { Gives (λ rest. passed rest.now) result ((checked (a_type (seen scope.now) depth) (must_be want.now)).read tt tokens.now) }
{
    let (found, rest) = a_type(alloc, scope, depth, tokens)?;
    if same_type(&found, want) {
        Ok(rest)
    } else {
        Err(syntax(tokens))
    }
}

#[tactic(auto, unfolding(crate::specs::Constants::ptr_to_int))]
fn ptr_to_int<'b>(
    alloc: Global,
    scope: &Scope,
    ty: &Ty,
    depth: u32,
    tokens: &'b [Token],
) -> Result<(Const, &'b [Token]), Stop>
    ensures { Gives (λ x. valued x.0 x.1.now) result ((ptr_to_int (seen scope.now) depth ty.now).read tt tokens.now) }
{
    let rest = skip_sign(scope.text, b"(", tokens)?;
    let rest = skip_word(scope.text, b"ptr", rest)?;
    let (place, rest) = a_place(alloc, scope, depth, rest)?;
    let rest = skip_word(scope.text, b"to", rest)?;
    let rest = this_type(alloc, scope, ty, depth, rest)?;
    let rest = skip_sign(scope.text, b")", rest)?;
    Ok((Const::AddressAsInt(place), rest))
}

#[tactic(auto, unfolding(crate::specs::Constants::int_to_ptr))]
fn int_to_ptr<'b>(scope: &Scope, tokens: &'b [Token]) -> Result<(Const, &'b [Token]), Stop>
    ensures { Gives (λ x. valued x.0 x.1.now) result ((int_to_ptr (seen scope.now)).read tt tokens.now) }
{
    let rest = skip_sign(scope.text, b"(", tokens)?;
    let (width, rest) = width_of(scope.text, rest)?;
    let (number, rest) = number_at(scope.text, width, rest)?;
    let rest = skip_word(scope.text, b"to", rest)?;
    let rest = skip_word(scope.text, b"ptr", rest)?;
    let rest = skip_sign(scope.text, b")", rest)?;
    Ok((Const::IntAsPtr(number), rest))
}

fn after_leaf<'b>(
    alloc: Global,
    scope: &Scope,
    ty: &Ty,
    depth: u32,
    head: LeafHead,
    tokens: &'b [Token],
) -> Result<(Const, &'b [Token]), Stop>
    ensures { Gives (λ x. valued x.0 x.1.now) result ((after_leaf (seen scope.now) depth ty.now head).read tt tokens.now) }
{
    match head {
        LeafHead::Zero => Ok((Const::Zero, tokens)),
        LeafHead::Int(number) => Ok((Const::Int(number), tokens)),
        LeafHead::Text => text_of(alloc, scope, tokens),
        LeafHead::PtrToInt => ptr_to_int(alloc, scope, ty, depth, tokens),
        LeafHead::IntToPtr => int_to_ptr(scope, tokens),
    }
}

#[tactic(auto, unfolding(crate::specs::Constants::address))]
fn address<'b>(
    alloc: Global,
    scope: &Scope,
    depth: u32,
    tokens: &'b [Token],
) -> Result<(Const, &'b [Token]), Stop>
    ensures { Gives (λ x. valued x.0 x.1.now) result ((address (seen scope.now) depth).read tt tokens.now) }
{
    let (place, rest) = a_place(alloc, scope, depth, tokens)?;
    Ok((Const::Address(place), rest))
}

/// A constant that isn't an address, in which no bracket may stand.
fn flat<'b>(
    alloc: Global,
    scope: &Scope,
    ty: &Ty,
    tokens: &'b [Token],
) -> Result<(Const, &'b [Token]), Stop>
    ensures { Gives (λ x. valued x.0 x.1.now) result ((flat_const (seen scope.now) ty.now).read tt tokens.now) }
{
    let (head, rest) = leaf_head(scope, shape_of(resolved(&*scope.types, &*ty)), tokens)?;
    after_leaf(alloc, scope, ty, 0, head, rest)
}

/// Constants are read exactly: what was read is meant by the tokens that were taken, and what tokens mean is read from them.
#[tactic(auto, using(crate::proofs::ConstLaws::const_good))]
pub fn constants_are_exact()
    ensures { (m : Meaning) (depth : ℕ) (ty : Ty) → Good none (a_const m depth ty) }
{}

/// At most one constant is meant by a list of tokens at a type.
#[tactic(auto, using(crate::proofs::ConstLaws::one_const))]
pub fn at_most_one_constant()
    ensures { (m : Meaning) (depth : ℕ) (ty : Ty) (tokens : List Token) (a b : Const) → (a_const m depth ty).means tt tokens a tt → (a_const m depth ty).means tt tokens b tt → a ≡ b }
{}

// ---- lists

/// A constant at a type, in which so many brackets may stand one in another.
#[cycle(constants)]
#[tactic(auto, using(crate::proofs::Depths::const_none, crate::proofs::Depths::const_more, crate::proofs::Depths::const_place))]
pub fn a_const<'b>(
    alloc: Global,
    scope: &Scope,
    ty: &Ty,
    depth: u32,
    tokens: &'b [Token],
) -> Result<(Const, &'b [Token]), Stop>
    ensures { Gives (λ x. valued x.0 x.1.now) result ((a_const (seen scope.now) depth ty.now).read tt tokens.now) }
{
    match tokens {
        [token, ..] if begins_place(scope.text, token) => address(alloc, scope, depth, tokens),
        _ if depth == 0 => flat(alloc, scope, ty, tokens),
        _ => with_brackets(alloc, scope, ty, depth - 1, tokens),
    }
}

#[cycle(constants)]
fn with_brackets<'b>(
    alloc: Global,
    scope: &Scope,
    ty: &Ty,
    depth: u32,
    tokens: &'b [Token],
) -> Result<(Const, &'b [Token]), Stop>
    requires { depth < 2 ^ 32 - 1 }
    ensures { Gives (λ x. valued x.0 x.1.now) result ((bracket_const (seen scope.now) depth (a_const (seen scope.now) depth) ty.now).read tt tokens.now) }
{
    let real = resolved(&*scope.types, &*ty);
    let (head, rest) = const_head(scope, shape_of(real), tokens)?;
    match head {
        ConstHead::Leaf(leaf) => after_leaf(alloc, scope, ty, depth + 1, leaf, rest),
        ConstHead::Array => array_const(alloc, scope, real, depth, rest),
        ConstHead::Struct => struct_const(alloc, scope, real, depth, rest),
        ConstHead::Packed => packed_const(alloc, scope, real, depth, rest),
    }
}

#[cycle(constants)]
#[tactic(auto, unfolding(crate::specs::Constants::array_const))]
fn array_const<'b>(
    alloc: Global,
    scope: &Scope,
    ty: &Ty,
    depth: u32,
    tokens: &'b [Token],
) -> Result<(Const, &'b [Token]), Stop>
    ensures { Gives (λ x. valued x.0 x.1.now) result ((array_const (seen scope.now) depth (a_const (seen scope.now) depth) (element_in ty.now (out-Ty ty.now))).read tt tokens.now) }
{
    let element = element_of(ty);
    let (all, rest) = elements(alloc, scope, element, depth, tokens)?;
    Ok((Const::Array(all), rest))
}

fn element_of(ty: &Ty) -> &Ty
    ensures { result.now ≡ element_in ty.now (out-Ty ty.now) }
{
    match ty {
        Ty::Array(_, element) => element.get(),
        _ => ty,
    }
}

fn fields_of(ty: &Ty) -> &[Ty]
    ensures { result.now ≡ fields_in (out-Ty ty.now) }
{
    match ty {
        Ty::Struct(_, fields) => fields.as_slice(),
        _ => &[],
    }
}

/// The elements of an array, and its closing bracket.
#[cycle(constants)]
#[tactic(auto, unfolding(no_read_rules::specs::Lists::items, no_read_rules::specs::Lists::no_items, no_read_rules::specs::Lists::some_items))]
fn elements<'b>(
    alloc: Global,
    scope: &Scope,
    element: &Ty,
    depth: u32,
    tokens: &'b [Token],
) -> Result<(List<Const>, &'b [Token]), Stop>
    ensures { Gives (λ x. valued x.0 x.1.now) result ((items (seen scope.now).text (codes "]") (member (seen scope.now) depth (a_const (seen scope.now) depth) element.now)).read tt tokens.now) }
{
    match tokens {
        [token, rest @ ..] if is_sign(scope.text, b"]", token) => Ok((List::new(alloc), rest)),
        _ => some_elements(alloc, scope, element, depth, tokens),
    }
}

#[cycle(constants)]
#[tactic(auto, unfolding(no_read_rules::specs::Lists::some_items))]
fn some_elements<'b>(
    alloc: Global,
    scope: &Scope,
    element: &Ty,
    depth: u32,
    tokens: &'b [Token],
) -> Result<(List<Const>, &'b [Token]), Stop>
    ensures { Gives (λ x. valued x.0 x.1.now) result ((some_items (seen scope.now).text (codes "]") (member (seen scope.now) depth (a_const (seen scope.now) depth) element.now)).read tt tokens.now) }
{
    let (first, rest) = member(alloc, scope, element, depth, tokens)?;
    more_elements(alloc, scope, element, depth, first, rest)
}

#[cycle(constants)]
fn more_elements<'b>(
    alloc: Global,
    scope: &Scope,
    element: &Ty,
    depth: u32,
    first: Const,
    tokens: &'b [Token],
) -> Result<(List<Const>, &'b [Token]), Stop>
    ensures { Gives (λ x. valued x.0 x.1.now) result (with_front (first ∷ []) (repeat_all (more_item (seen scope.now).text (codes "]") (member (seen scope.now) depth (a_const (seen scope.now) depth) element.now)) tt tokens.now)) }
{
    let mut all = List::new(alloc);
    all.push(first)?;
    let mut rest = tokens;
    loop {
        let (item, after) = more_element(alloc, scope, element, depth, rest)?;
        match item {
            None => return Ok((all, after)),
            Some(constant) => {
                all.push(constant)?;
                rest = after;
            }
        }
    }
}

#[cycle(constants)]
#[tactic(auto, unfolding(no_read_rules::specs::Lists::more_item))]
fn more_element<'b>(
    alloc: Global,
    scope: &Scope,
    element: &Ty,
    depth: u32,
    tokens: &'b [Token],
) -> Result<(Option<Const>, &'b [Token]), Stop>
    ensures { Gives (λ x. valued x.0 x.1.now) result ((more_item (seen scope.now).text (codes "]") (member (seen scope.now) depth (a_const (seen scope.now) depth) element.now)).read tt tokens.now) }
{
    let (closes, rest) = closes_list(scope.text, b"]", tokens)?;
    if closes {
        return Ok((None, rest));
    }
    let (constant, rest) = member(alloc, scope, element, depth, rest)?;
    Ok((Some(constant), rest))
}

/// A member: its type, which has to be this one, and the constant.
#[cycle(constants)]
#[tactic(auto, unfolding(crate::specs::Constants::member))]
fn member<'b>(
    alloc: Global,
    scope: &Scope,
    ty: &Ty,
    depth: u32,
    tokens: &'b [Token],
) -> Result<(Const, &'b [Token]), Stop>
    ensures { Gives (λ x. valued x.0 x.1.now) result ((member (seen scope.now) depth (a_const (seen scope.now) depth) ty.now).read tt tokens.now) }
{
    let rest = this_type(alloc, scope, ty, depth, tokens)?;
    a_const(alloc, scope, ty, depth, rest)
}

#[cycle(constants)]
#[tactic(auto, unfolding(crate::specs::Constants::struct_const))]
fn struct_const<'b>(
    alloc: Global,
    scope: &Scope,
    ty: &Ty,
    depth: u32,
    tokens: &'b [Token],
) -> Result<(Const, &'b [Token]), Stop>
    ensures { Gives (λ x. valued x.0 x.1.now) result ((struct_const (seen scope.now) depth (a_const (seen scope.now) depth) (fields_in (out-Ty ty.now))).read tt tokens.now) }
{
    let (all, rest) = fields(alloc, scope, fields_of(ty), depth, tokens)?;
    Ok((Const::Struct(all), rest))
}

#[cycle(constants)]
#[tactic(auto, unfolding(crate::specs::Constants::packed_const))]
fn packed_const<'b>(
    alloc: Global,
    scope: &Scope,
    ty: &Ty,
    depth: u32,
    tokens: &'b [Token],
) -> Result<(Const, &'b [Token]), Stop>
    ensures { Gives (λ x. valued x.0 x.1.now) result ((packed_const (seen scope.now) depth (a_const (seen scope.now) depth) (fields_in (out-Ty ty.now))).read tt tokens.now) }
{
    let rest = skip_sign(scope.text, b"{", tokens)?;
    let (all, rest) = fields(alloc, scope, fields_of(ty), depth, rest)?;
    let rest = skip_sign(scope.text, b">", rest)?;
    Ok((Const::Struct(all), rest))
}

/// The fields of a struct, and its closing bracket.
#[cycle(constants)]
#[tactic(auto, unfolding(crate::specs::Constants::fields, crate::specs::Constants::no_fields, crate::specs::Constants::some_fields))]
fn fields<'b>(
    alloc: Global,
    scope: &Scope,
    types: &[Ty],
    depth: u32,
    tokens: &'b [Token],
) -> Result<(List<Const>, &'b [Token]), Stop>
    ensures { Gives (λ x. valued x.0 x.1.now) result ((fields (seen scope.now) depth (a_const (seen scope.now) depth) (codes "}") types.now).read tt tokens.now) }
{
    match tokens {
        [token, rest @ ..] if is_sign(scope.text, b"}", token) => Ok((List::new(alloc), rest)),
        _ => some_fields(alloc, scope, types, depth, tokens),
    }
}

#[cycle(constants)]
#[tactic(auto, unfolding(crate::specs::Constants::some_fields))]
fn some_fields<'b>(
    alloc: Global,
    scope: &Scope,
    types: &[Ty],
    depth: u32,
    tokens: &'b [Token],
) -> Result<(List<Const>, &'b [Token]), Stop>
    ensures { Gives (λ x. valued x.0 x.1.now) result ((some_fields (seen scope.now) depth (a_const (seen scope.now) depth) (codes "}") types.now).read tt tokens.now) }
{
    match types {
        [] => past(alloc, scope, depth, tokens),
        [ty, more @ ..] => {
            let (first, rest) = member(alloc, scope, ty, depth, tokens)?;
            more_fields(alloc, scope, more, depth, first, rest)
        }
    }
}

/// A member past the last field: its type is refused.
fn past<'b, T: Drop>(
    alloc: Global,
    scope: &Scope,
    depth: u32,
    tokens: &'b [Token],
) -> Result<(T, &'b [Token]), Stop>
    ensures { Gives (λ x. valued x.0 x.1.now) result ((checked (a_type (seen scope.now) depth) (λ _. Err Flaw.Syntax)).read tt tokens.now) }
{
    let (_, _) = a_type(alloc, scope, depth, tokens)?;
    Err(syntax(tokens))
}

/// The fields behind the first.
#[cycle(constants)]
fn more_fields<'b>(
    alloc: Global,
    scope: &Scope,
    types: &[Ty],
    depth: u32,
    first: Const,
    tokens: &'b [Token],
) -> Result<(List<Const>, &'b [Token]), Stop>
    ensures { Gives (λ x. valued x.0 x.1.now) result (with_front (first ∷ []) ((more_fields (seen scope.now) depth (a_const (seen scope.now) depth) (codes "}") types.now).read tt tokens.now)) }
{
    let mut all = List::new(alloc);
    all.push(first)?;
    let mut left = types;
    let mut rest = tokens;
    loop {
        let (item, after) = next_field(alloc, scope, left, depth, rest)?;
        match item {
            None => return Ok((all, after)),
            Some(constant) => {
                all.push(constant)?;
                left = behind_first(left);
                rest = after;
            }
        }
    }
}

fn behind_first(types: &[Ty]) -> &[Ty]
    ensures { result.now ≡ drop 1 types.now }
{
    match types {
        [_, more @ ..] => more,
        [] => types,
    }
}

#[cycle(constants)]
#[tactic(auto, unfolding(crate::specs::Constants::next_field))]
fn next_field<'b>(
    alloc: Global,
    scope: &Scope,
    types: &[Ty],
    depth: u32,
    tokens: &'b [Token],
) -> Result<(Option<Const>, &'b [Token]), Stop>
    ensures { Gives (λ x. valued x.0 x.1.now) result ((next_field (seen scope.now) depth (a_const (seen scope.now) depth) (codes "}") types.now).read tt tokens.now) }
{
    let (closes, rest) = closes_list(scope.text, b"}", tokens)?;
    if closes {
        return Ok((None, rest));
    }
    match types {
        [] => past(alloc, scope, depth, rest),
        [ty, ..] => {
            let (constant, rest) = member(alloc, scope, ty, depth, rest)?;
            Ok((Some(constant), rest))
        }
    }
}
