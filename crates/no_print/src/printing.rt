#![tactic(auto, using(crate::proofs::Appending::written_append))]

ghost use Rattle.std.specs.Prelude.{◌≡◌, ◌++◌, IfOk, OnOk, map};
ghost use Rattle.std.specs.List.{list_any};
ghost use Rattle.no_ir.specs.Naming.{with_name};
ghost use Rattle.no_ir.specs.declared.function.Function.{Function};
ghost use Rattle.no_ir.specs.declared.function.GlobalVar.{GlobalVar};
ghost use Rattle.no_print.specs.Modules.{each, function_pieces, global_pieces, has_inserted as has_inserted_of, kind_word as kind_word_of, layout_pieces, module_text, named_pieces, names_once, node_pieces, pieces_in};
ghost use Rattle.no_print.specs.Scopes.{spelled_by};
ghost use Rattle.no_print.specs.Wrote.{Wrote};

use crate::constants::put_const;
use crate::functions::{has_inserted, put_function};
use crate::names::{put_global, put_local, put_string};
use crate::operands::put_alignment;
use crate::output::{GLUED, LINED, SPACED, put, put_sign, put_token, put_word};
use crate::scope::Scope;
use crate::types::put_type;
use no_ir::{Bytes, Function, GlobalVar, Module, Names, NoMemory, Ty};
use sqlite_items::Items as List;
use std::alloc::Global;

/// Appends the line of the data layout.
fn put_layout(out: &mut Vec<u8>, layout: &[u8]) -> Result<(), NoMemory>
    ensures { OnOk result (Wrote out.old.items out.new.items (layout_pieces layout.now)) }
{
    put_word(out, GLUED, b"target")?;
    put_word(out, SPACED, b"datalayout")?;
    put_sign(out, SPACED, b"=")?;
    put_string(out, SPACED, layout)?;
    Ok(())
}

/// Appends the line of a named type.
fn put_named(out: &mut Vec<u8>, scope: &Scope, named: &(Bytes, Ty)) -> Result<(), NoMemory>
    ensures { OnOk result (Wrote out.old.items out.new.items (named_pieces (spelled_by scope.now) named.now)) }
{
    put_local(out, LINED, named.0.as_slice())?;
    put_sign(out, SPACED, b"=")?;
    put_word(out, SPACED, b"type")?;
    put_type(out, scope, &named.1, SPACED)?;
    Ok(())
}

/// Appends the lines of named types.
fn put_all_named(out: &mut Vec<u8>, scope: &Scope, types: &[(Bytes, Ty)]) -> Result<(), NoMemory>
    ensures { OnOk result (Wrote out.old.items out.new.items (each (named_pieces (spelled_by scope.now)) types.now)) }
{
    for named in types {
        put_named(out, scope, named)?;
    }
    Ok(())
}

/// The word of a global.
fn kind_word(constant: bool) -> &'static [u8]
    ensures { result.now ≡ kind_word_of constant }
{
    if constant { b"constant" } else { b"global" }
}

/// Appends the line of a global.
fn put_global_line(out: &mut Vec<u8>, scope: &Scope, g: &GlobalVar) -> Result<(), NoMemory>
    ensures { OnOk result (Wrote out.old.items out.new.items (global_pieces (spelled_by scope.now) g.now)) }
{
    put_global(out, LINED, g.name.as_slice())?;
    put_sign(out, SPACED, b"=")?;
    put_word(out, SPACED, kind_word(g.constant))?;
    put_type(out, scope, &g.ty, SPACED)?;
    put_const(out, scope, &g.init, &g.ty, SPACED)?;
    put_alignment(out, g.align)?;
    Ok(())
}

/// Appends the lines of globals.
fn put_globals(out: &mut Vec<u8>, scope: &Scope, globals: &[GlobalVar]) -> Result<(), NoMemory>
    ensures { OnOk result (Wrote out.old.items out.new.items (each (global_pieces (spelled_by scope.now)) globals.now)) }
{
    for g in globals {
        put_global_line(out, scope, g)?;
    }
    Ok(())
}

/// Appends functions.
fn put_functions(out: &mut Vec<u8>, scope: &Scope, functions: &[Function]) -> Result<(), NoMemory>
    ensures { OnOk result (Wrote out.old.items out.new.items (each (function_pieces (spelled_by scope.now)) functions.now)) }
{
    for f in functions {
        put_function(out, scope, f)?;
    }
    Ok(())
}

/// Whether some function has an inserted instruction.
fn any_inserted(functions: &[Function]) -> bool
    ensures { result ≡ list_any has_inserted_of functions.now }
{
    for f in functions {
        if has_inserted(f) {
            return true;
        }
    }
    false
}

/// Appends the node that marks inserted instructions.
fn put_node(out: &mut Vec<u8>, inserted: bool) -> Result<(), NoMemory>
    ensures { OnOk result (Wrote out.old.items out.new.items (node_pieces inserted)) }
{
    if !inserted {
        return Ok(());
    }
    put_token(out, LINED, b"!0")?;
    put_sign(out, SPACED, b"=")?;
    put_token(out, SPACED, b"!")?;
    put_sign(out, GLUED, b"{")?;
    put_sign(out, GLUED, b"}")?;
    Ok(())
}

/// Appends a module, but not the end of its last line.
fn put_module(out: &mut Vec<u8>, scope: &Scope, program: &Module) -> Result<(), NoMemory>
    ensures { OnOk result (Wrote out.old.items out.new.items (pieces_in (spelled_by scope.now) program.now)) }
{
    put_layout(out, program.layout.as_slice())?;
    put_all_named(out, scope, program.types.as_slice())?;
    put_globals(out, scope, program.globals.as_slice())?;
    put_functions(out, scope, program.functions.as_slice())?;
    put_node(out, any_inserted(program.functions.as_slice()))?;
    Ok(())
}

/// A name has appeared.
fn add_name(names: &mut Names, name: &[u8]) -> Result<(), NoMemory>
    ensures { OnOk result (names.new ≡ with_name names.old name.now) }
{
    if names.len() >= u32::MAX as usize {
        return Err(NoMemory);
    }
    names.number(name)?;
    Ok(())
}

/// The names of globals, each once.
fn global_names(alloc: Global, globals: &[GlobalVar]) -> Result<List<Bytes>, NoMemory>
    ensures { IfOk result (λ all. all ≡ names_once (map (λ (g : GlobalVar). g.name) globals.now)) }
{
    let mut names = Names::new(alloc)?;
    for g in globals {
        add_name(&mut names, g.name.as_slice())?;
    }
    names.into_list()
}

/// The names of functions, each once.
fn function_names(alloc: Global, functions: &[Function]) -> Result<List<Bytes>, NoMemory>
    ensures { IfOk result (λ all. all ≡ names_once (map (λ (f : Function). f.name) functions.now)) }
{
    let mut names = Names::new(alloc)?;
    for f in functions {
        add_name(&mut names, f.name.as_slice())?;
    }
    names.into_list()
}

/// The names of a module's globals, each once.
fn names_of_globals(alloc: Global, program: &Module) -> Result<List<Bytes>, NoMemory>
    ensures { IfOk result (λ all. all ≡ names_once (map (λ (g : GlobalVar). g.name) program.now.globals)) }
{
    global_names(alloc, program.globals.as_slice())
}

/// The names of a module's functions, each once.
fn names_of_functions(alloc: Global, program: &Module) -> Result<List<Bytes>, NoMemory>
    ensures { IfOk result (λ all. all ≡ names_once (map (λ (f : Function). f.name) program.now.functions)) }
{
    function_names(alloc, program.functions.as_slice())
}

/// Appends a module.
fn put_whole(
    out: &mut Vec<u8>,
    program: &Module,
    types: &[(Bytes, Ty)],
    globals: &[Bytes],
    functions: &[Bytes],
) -> Result<(), NoMemory>
    requires types { types.now ≡ program.now.types }
    requires globals { globals.now ≡ names_once (map (λ (g : GlobalVar). g.name) program.now.globals) }
    requires functions { functions.now ≡ names_once (map (λ (f : Function). f.name) program.now.functions) }
    ensures { OnOk result (out.new.items ≡ out.old.items ++ module_text program.now) }
{
    let scope = Scope {
        types,
        globals,
        functions,
    };
    put_module(out, &scope, program)?;
    put(out, b"\n")?;
    Ok(())
}

/// The one spelling of a module, whose lines all end (docs/LANGUAGE.md, "Canonical text").
///
/// It works for every module, also one that no text reads to: a number past the end of a list stands for
/// the empty name, and a member past the last field of its type for one of type `void`. `NoMemory` comes
/// where there is no room for the names or the text, or where 2^32 - 1 globals or functions have different names.
pub fn print(alloc: Global, program: &Module) -> Result<Bytes, NoMemory>
    ensures text { IfOk result (λ text. text ≡ module_text program.now) }
{
    let globals = names_of_globals(alloc, program)?;
    let functions = names_of_functions(alloc, program)?;
    let mut out = Vec::new(alloc);
    put_whole(
        &mut out,
        program,
        program.types.as_slice(),
        globals.as_slice(),
        functions.as_slice(),
    )?;
    Ok(List::from_vec(out))
}
