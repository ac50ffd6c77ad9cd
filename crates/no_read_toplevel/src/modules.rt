ghost use Rattle.std.specs.Prelude.{◌≡◌, ℕ, false, List, Ok, IfOk, OnOk};
ghost use Rattle.no_ir.specs.declared.function.Role.{Role};
ghost use Rattle.no_ir.specs.declared.function.Module.{Module};
ghost use Rattle.no_ir.specs.declared.types.Ty.{Ty};
ghost use Rattle.no_lex.specs.declared.token.Token.{Token};
ghost use Rattle.no_read_rules.specs.Rules.{Gives, after, all_taken};
ghost use Rattle.no_read_rules.specs.Scope.{Meaning, seen};
ghost use Rattle.no_read_toplevel.specs.Grouping.{found_in};
ghost use Rattle.no_read_toplevel.specs.Gathered.{gathered_by};
ghost use Rattle.no_read_toplevel.specs.Modules.{set_function, function_of, module_of, IsModuleOf, forms_read};
ghost use Rattle.no_read_toplevel.specs.Tops.{tops};

use crate::groups::{Groups, Settings, all_grouped, with_marks};
use crate::tops::{Top, tops};
use no_ir::{Bytes, Function, List, Module, NoMemory, Role, Ty};
use no_lex::Token;
use no_read_functions::Written;
use no_read_rules::{Scope, Stop, syntax};
use std::alloc::Global;

fn set_function(s: Settings, written: Written) -> Result<Function, NoMemory>
    ensures { IfOk result (λ f. f ≡ set_function s written) }
{
    let Written {
        head,
        blocks,
        names,
    } = written;
    let registers = names.registers.into_list()?;
    let labels = names.labels.into_list()?;
    Ok(Function {
        name: head.name,
        result: head.result,
        params: head.params,
        bound: s.bound,
        device_address: s.address,
        registers,
        labels,
        blocks,
    })
}

/// A function, with what its attributes set.
fn function_of(text: &[u8], groups: &Groups, written: Written) -> Result<Function, NoMemory>
    ensures { IfOk result (λ f. f ≡ function_of text.now (found_in groups.now) written) }
{
    let settings = with_marks(text, groups, written.head.marks.as_slice());
    set_function(settings, written)
}

/// A module with one form more.
fn add_top(text: &[u8], groups: &Groups, top: Top, into: &mut Module) -> Result<(), NoMemory>
    ensures { OnOk result (into.new ≡ gathered_by text.now (found_in groups.now) into.old top) }
{
    match top {
        Top::Layout(layout) => into.layout = layout,
        Top::Global(global) => into.globals.push(global)?,
        Top::Function(written) => {
            let function = function_of(text, groups, written)?;
            into.functions.push(function)?;
        }
        Top::Group(_group, _marks) => {}
        Top::Nothing => {}
    }
    Ok(())
}

/// The module that forms give.
#[tactic(auto, using(crate::proofs::ModuleLaws::gathered_is))]
fn module_of(
    alloc: Global,
    text: &[u8],
    types: List<(Bytes, Ty)>,
    forms: Vec<Top>,
) -> Result<Module, NoMemory>
    ensures { IfOk result (λ m. m ≡ module_of text.now types forms.items) }
{
    let groups = all_grouped(alloc, text, &forms)?;
    let mut module = Module {
        layout: List::new(alloc),
        types,
        globals: List::new(alloc),
        functions: List::new(alloc),
    };
    for top in forms {
        add_top(text, &groups, top, &mut module)?;
    }
    Ok(module)
}

/// All forms of a text, and nothing behind them.
fn all_forms(
    alloc: Global,
    scope: &Scope,
    role: Role,
    tokens: &[Token],
) -> Result<(Vec<Top>, bool), Stop>
    ensures { Gives (λ x. (x.0.items, x.1)) result (after ((tops (seen scope.now) role).read false tokens.now) all_taken) }
{
    let (forms, stated, rest) = tops(alloc, scope, role, tokens)?;
    if rest.is_empty() {
        Ok((forms, stated))
    } else {
        Err(syntax(rest))
    }
}

/// The module that a text's tokens are read as, beside its type definitions and with these named types.
///
/// The forms stand in any order; the first token that none of them allows is Syntax, and so is the text's end where a form isn't whole.
/// LeftOut and Number come as the forms say.
pub fn a_module(
    alloc: Global,
    scope: &Scope,
    role: Role,
    types: List<(Bytes, Ty)>,
    tokens: &[Token],
) -> Result<Module, Stop>
    ensures { Gives (λ m. m) result (forms_read (seen scope.now) role types tokens.now) }
{
    let (forms, _) = all_forms(alloc, scope, role, tokens)?;
    let module = module_of(alloc, scope.text, types, forms)?;
    Ok(module)
}

/// Modules are read exactly: what is read is meant by the tokens, what they mean is read, and at most one module is meant.
#[tactic(auto, using(crate::proofs::ModuleLaws::read_is_meant, crate::proofs::ModuleLaws::meant_is_read, crate::proofs::ModuleLaws::at_most_one))]
pub fn modules_are_exact()
    ensures read { (m : Meaning) (role : Role) (types : List (List ℕ × Ty)) (tokens : List Token) (found : Module) → forms_read m role types tokens ≡ Ok found → IsModuleOf m role types tokens found }
    ensures meant { (m : Meaning) (role : Role) (types : List (List ℕ × Ty)) (tokens : List Token) (found : Module) → IsModuleOf m role types tokens found → forms_read m role types tokens ≡ Ok found }
    ensures only { (m : Meaning) (role : Role) (types : List (List ℕ × Ty)) (tokens : List Token) (a b : Module) → IsModuleOf m role types tokens a → IsModuleOf m role types tokens b → a ≡ b }
{}
