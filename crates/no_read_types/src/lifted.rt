ghost use Rattle.std.specs.Prelude.{ℕ, List, ◌≡◌, ◌<◌, [], map, length, None, IfOk, Result, Ok};
ghost use Rattle.no_read_types.specs.Graph.{is_set, count_set, next_from, graph_of, IsFirstOnCircle};
ghost use Rattle.no_lex.specs.declared.token.Token.{Token};
ghost use Rattle.no_read_rules.specs.declared.fault.Stopped.{Stopped};
ghost use Rattle.no_read_rules.specs.Scope.{Meaning};
ghost use Rattle.no_read_types.specs.declared.definition.Lifting.{Lifting};
ghost use Rattle.no_read_types.specs.declared.lifted.Lifted.{Lifted};
ghost use Rattle.no_read_types.specs.Lifting.{ArePieces, Parted, lifting_of, lift_all, Piece};
ghost use Rattle.no_read_types.specs.Lifted.{renumbered, number_in, picked, types_in, names_with, place_in, Arranges, Numbers, Lifts, Answers};

use crate::circle::first_on_circle;
use crate::definition::{Definition, Lifting, add_name, type_definitions};
use crate::graph::graph_of;
use crate::order::number;
use no_ir::{Boxed, List, Names, NoMemory, Ty};
use no_lex::Token;
use no_read_rules::{Flaw, Stop, Stopped};
use sqlite_items::at;
use std::alloc::{AllocError, Global};

/// The named types of a text by number, with their names, and the tokens without their definitions.
#[derive(Drop)]
pub struct Lifted {
    pub named: Names,
    /// Each refers to lower numbers alone.
    pub types: List<Ty>,
    pub rest: List<Token>,
}

fn number_in(numbers: &[u32], n: u32) -> u32
    ensures { result ≡ number_in numbers.now n }
{
    if (n as usize) < numbers.len() {
        numbers[n as usize]
    } else {
        n
    }
}

/// A type whose references have these numbers.
#[cycle(renumbered)]
fn renumbered(alloc: Global, ty: &Ty, numbers: &[u32]) -> Result<Ty, NoMemory>
    ensures { IfOk result (λ t. t ≡ renumbered (number_in numbers.now) ty.now) }
{
    match ty {
        Ty::Void => Ok(Ty::Void),
        Ty::Int(width) => Ok(Ty::Int(*width)),
        Ty::Ptr => Ok(Ty::Ptr),
        Ty::Named(n) => Ok(Ty::Named(number_in(numbers, *n))),
        Ty::Array(count, element) => {
            let element = renumbered(alloc, element.get(), numbers)?;
            Ok(Ty::Array(*count, Boxed::new(alloc, element)?))
        }
        Ty::Struct(packed, fields) => {
            let fields = renumbered_all(alloc, fields.as_slice(), numbers)?;
            Ok(Ty::Struct(*packed, fields))
        }
    }
}

#[cycle(renumbered)]
fn renumbered_all(alloc: Global, types: &[Ty], numbers: &[u32]) -> Result<List<Ty>, NoMemory>
    ensures { IfOk result (λ all. all ≡ map (renumbered (number_in numbers.now)) types.now) }
{
    let mut all = List::new(alloc);
    for ty in types {
        all.push(renumbered(alloc, ty, numbers)?)?;
    }
    Ok(all)
}

/// The names of definitions in an order.
fn names_in_order(alloc: Global, defined: &[Definition], order: &[u32]) -> Result<Names, NoMemory>
    ensures { IfOk result (λ names. names ≡ names_with [] (picked defined.now order.now)) }
{
    let mut names = Names::new(alloc)?;
    for n in order {
        if let Some(definition) = at(defined, *n as usize) {
            add_name(&mut names, definition.name.as_slice())?;
        }
    }
    Ok(names)
}

/// The types of definitions in an order.
fn types_in_order(
    alloc: Global,
    defined: &[Definition],
    order: &[u32],
    numbers: &[u32],
) -> Result<List<Ty>, NoMemory>
    ensures { IfOk result (λ all. all ≡ types_in (number_in numbers.now) (picked defined.now order.now)) }
{
    let mut all = List::new(alloc);
    for n in order {
        if let Some(definition) = at(defined, *n as usize) {
            all.push(renumbered(alloc, &definition.ty, numbers)?)?;
        }
    }
    Ok(all)
}

/// The place of a definition's name.
fn place_in(defined: &[Definition], n: usize) -> Option<u32>
    ensures { result ≡ place_in defined.now n }
{
    match at(defined, n) {
        Some(definition) => Some(definition.at),
        None => None,
    }
}

/// The fault at the first definition on a circle, where some wait and each of them refers to one that waits.
fn circle(
    alloc: Global,
    defined: &[Definition],
    graph: &[List<u32>],
    waits: &[bool],
) -> Result<Stopped, AllocError>
    requires long { length waits.now ≡ length graph.now }
    requires some { 0 < count_set waits.now }
    requires stuck { next_from (is_set waits.now) 0 graph.now ≡ None }
    ensures { IfOk result (λ f. (n : ℕ) × IsFirstOnCircle graph.now n × (f ≡ record { flaw = Flaw.Circle; at = place_in defined.now n })) }
{
    let n = first_on_circle(alloc, graph, waits)?;
    Ok(Stopped {
        flaw: Flaw::Circle,
        at: place_in(defined, n),
    })
}

/// Names and types of definitions in an order.
fn in_order(
    alloc: Global,
    defined: &[Definition],
    order: &[u32],
    numbers: &[u32],
) -> Result<(Names, List<Ty>), NoMemory>
    ensures names { IfOk result (λ x. x.0 ≡ names_with [] (picked defined.now order.now)) }
    ensures types { IfOk result (λ x. x.1 ≡ types_in (number_in numbers.now) (picked defined.now order.now)) }
{
    let names = names_in_order(alloc, defined, order)?;
    let types = types_in_order(alloc, defined, order, numbers)?;
    Ok((names, types))
}

/// Definitions by number, or the first on a circle.
#[tactic(auto, using(crate::proofs::LiftedLaws::some_wait))]
fn numbered(
    alloc: Global,
    defined: &[Definition],
    graph: &[List<u32>],
) -> Result<(Names, List<Ty>), Stop>
    requires { graph.now ≡ graph_of defined.now }
    ensures { Numbers defined.now result }
{
    let numbering = number(alloc, graph)?;
    if numbering.order.len() < graph.len() {
        return Err(Stop::Fault(circle(alloc, defined, graph, &numbering.waits)?));
    }
    let (names, types) = in_order(
        alloc,
        defined,
        numbering.order.as_slice(),
        &numbering.numbers,
    )?;
    Ok((names, types))
}

fn arrange(alloc: Global, lifting: Lifting) -> Result<Lifted, Stop>
    ensures { Answers result (Arranges lifting) }
{
    let Lifting { defined, kept } = lifting;
    let graph = graph_of(alloc, defined.as_slice())?;
    let (named, types) = numbered(alloc, defined.as_slice(), graph.as_slice())?;
    Ok(Lifted {
        named,
        types,
        rest: kept,
    })
}

fn lifts(alloc: Global, text: &[u8], tokens: &[Token]) -> Result<Lifted, Stop>
    ensures { Answers result (Lifts text.now tokens.now) }
{
    let lifting = type_definitions(alloc, text, tokens)?;
    arrange(alloc, lifting)
}

/// The type definitions of a text, by number, and its other tokens.
///
/// A definition stands wherever a name, an equals sign and the word `type` follow each other, and is a struct type. The first
/// fault in a definition is answered instead, or else Circle at the name of the first definition, in the order of the text,
/// that lies on a circle of references.
#[tactic(auto, using(crate::proofs::LiftedLaws::only_answer))]
pub fn definitions(alloc: Global, text: &[u8], tokens: &[Token]) -> Result<Lifted, Stop>
    // What is answered is what the text's definitions give, and at most one answer is.
    ensures lifts { Answers result (Lifts text.now tokens.now) }
    ensures only { (answer : Result Lifted Stopped) → Lifts text.now tokens.now answer → Answers result (λ found. found ≡ answer) }
{
    lifts(alloc, text, tokens)
}

/// Definitions are lifted exactly: tokens part into definitions and kept tokens in at most one way, which is the one that is read.
#[tactic(auto, using(crate::proofs::LiftLaws::lift_found, crate::proofs::LiftLaws::lift_only, crate::proofs::LiftLaws::lift_once))]
pub fn definitions_are_exact()
    ensures found { (m : Meaning) (names : List (List ℕ)) (tokens : List Token) (l : Lifting) → lift_all m names tokens ≡ Ok l → Parted m names tokens l }
    ensures only { (m : Meaning) (names : List (List ℕ)) (tokens : List Token) (pieces : List Piece) → ArePieces m names tokens pieces → lift_all m names tokens ≡ Ok (lifting_of pieces) }
    ensures once { (m : Meaning) (names : List (List ℕ)) (tokens : List Token) (p q : List Piece) → ArePieces m names tokens p → ArePieces m names tokens q → lifting_of p ≡ lifting_of q }
{}
