ghost use Rattle.std.specs.Prelude.{◌≡◌, true, IfOk, map};
ghost use Rattle.py_tree.specs.Joined.{function_of, module_of, param_of, statements_of};
ghost use Rattle.py_tree.specs.Lawful.{lawful};
ghost use Rattle.symbols.specs.Answers.{Exact, IsResolved, Right};
ghost use Rattle.symbols.specs.Bindings as spec;
ghost use Rattle.symbols.specs.Bindings.{globals_in, locals};
ghost use Rattle.symbols.specs.Classes.{classes as spec_classes, found_classes};
ghost use Rattle.symbols.specs.ClassViews.{founds};
ghost use Rattle.symbols.specs.Functions.{locals_in};
ghost use Rattle.symbols.specs.Located.{located};
ghost use Rattle.symbols.specs.Parts.{IsPartsOf};
ghost use Rattle.symbols.specs.Uses.{EachUseIsBound};

use crate::binding::Binding;
use crate::bindings::bindings_of;
use crate::bound_names::{globals_of, locals_of};
use crate::class_list::{Classes, FoundClasses};
use crate::classes::classes_of;
use crate::functions::{FunctionAt, functions_of};
use crate::imports::module_kind;
use crate::module_uses::static_uses;
use crate::outer::Outer;
use crate::parts::Parts;
use crate::resolved::{FunctionLocals, FunctionsLocals, Resolved};
use crate::scope::scope_of;
use py_tree::expression::{Param, Texts};
use py_tree::fault::Stop;
use py_tree::statement::{Function, Module, Stmt};
use std::alloc::{AllocError, Global};

/// The names of a module (Python reference: naming and binding). In time linear in its text and in the
/// classes that its imports bind.
///
/// # Errors
///
/// The first fault of a name: on the least line, and of those on one line the one with the least code.
pub fn resolve(alloc: Global, tree: &Module, outer: &Outer) -> Result<Resolved, Stop>
    requires { lawful (module_of tree.now) ≡ true }
    // What is answered is so.
    ensures right { Right outer.now tree.now result }
    // What is so is answered.
    ensures exact { Exact outer.now tree.now result }
{
    let body = tree.body.as_slice();
    let bindings = bindings_of(alloc, body)?;
    let scope = scope_of(alloc, body)?;
    let functions = functions_of(alloc, scope.as_slice())?;
    let classes = classes_of(alloc, outer, scope.as_slice())?;
    let parts = Parts {
        body,
        bindings: bindings.as_slice(),
        scope: scope.as_slice(),
        functions: functions.as_slice(),
    };
    resolve_parts(alloc, tree, outer, &parts, classes)
}

/// Every use of a name has exactly one binding.
pub fn one_binding()
    ensures { EachUseIsBound }
{}

fn resolve_parts(
    alloc: Global,
    tree: &Module,
    outer: &Outer,
    parts: &Parts<'_>,
    classes: FoundClasses,
) -> Result<Resolved, Stop>
    requires lawful { lawful (module_of tree.now) ≡ true }
    requires parts { IsPartsOf (module_of tree.now) parts.now }
    requires found { founds classes ≡ found_classes outer.now (module_of tree.now) }
    ensures right { Right outer.now tree.now result }
    ensures exact { Exact outer.now tree.now result }
{
    if let Some(fault) = parts.first_fault(alloc, &classes)? {
        return Err(Stop::Fault(fault));
    }
    Ok(listed(alloc, tree, outer, parts, Classes::of(classes))?)
}

/// The lists of a module's names.
fn listed(
    alloc: Global,
    tree: &Module,
    outer: &Outer,
    parts: &Parts<'_>,
    classes: Classes,
) -> Result<Resolved, AllocError>
    requires lawful { lawful (module_of tree.now) ≡ true }
    requires parts { IsPartsOf (module_of tree.now) parts.now }
    requires classes { classes ≡ spec_classes outer.now (module_of tree.now) }
    ensures { IfOk result (IsResolved outer.now tree.now) }
{
    let globals = global_names(alloc, parts.bindings)?;
    let functions = locals_of_all(alloc, parts.functions)?;
    let kind = module_kind(parts.body);
    let statics = static_uses(alloc, kind, parts.bindings, parts.body)?;
    let name = outer.name.copy(alloc)?;
    let copy = tree.copy(alloc)?;
    Ok(Resolved {
        tree: copy,
        name,
        number: outer.number,
        kind,
        globals,
        classes,
        functions,
        statics,
    })
}

fn global_names(alloc: Global, bindings: &[Binding]) -> Result<Texts, AllocError>
    ensures { IfOk result (λ names. names ≡ globals_in bindings.now) }
{
    let names = globals_of(alloc, bindings)?;
    names.texts(alloc)
}

fn locals_of_all(alloc: Global, functions: &[FunctionAt<'_>]) -> Result<FunctionsLocals, AllocError>
    ensures { IfOk result (λ all. all ≡ locals_in (located functions.now)) }
{
    let mut all = FunctionsLocals::new(alloc);
    for known in functions {
        all.push(FunctionLocals {
            line: known.line,
            locals: locals_of_function(alloc, known.function)?,
        })?;
    }
    Ok(all)
}

fn locals_of_function(alloc: Global, function: &Function) -> Result<Texts, AllocError>
    ensures { IfOk result (λ names. names ≡ locals (function_of function.now)) }
{
    local_names(alloc, function.params.as_slice(), function.body.as_slice())
}

fn local_names(alloc: Global, params: &[Param], body: &[Stmt]) -> Result<Texts, AllocError>
    ensures { IfOk result (λ names. names ≡ spec.locals_of (map param_of params.now) (statements_of body.now)) }
{
    let bindings = bindings_of(alloc, body)?;
    let names = locals_of(alloc, params, bindings.as_slice())?;
    names.texts(alloc)
}
