ghost use Rattle.std.specs.Prelude.{◌≡◌, true, IfOk, OnOk};
ghost use Rattle.py_tree.specs.Joined.{module_of};
ghost use Rattle.py_tree.specs.Lawful.{lawful};
ghost use Rattle.py_tree.specs.Syntax.{Text as Name};
ghost use Rattle.symbols.specs.Words.{among};
ghost use Rattle.module_load.specs.RightDecisions as rule;
ghost use Rattle.module_load.specs.RightDecisions.{IsRight};
ghost use Rattle.module_load.specs.Views.{IsDecided, with_module};
ghost use Rattle.module_load.specs.declared.verdict.Verdict.{Verdict as Decision};

use crate::body::{spent, unbuilt};
use crate::globals::{Globals, ModuleGlobal};
use crate::import_faults::first_import_fault;
use crate::known::Known;
use crate::outer::outer;
use crate::verdict::Verdict;
use lists::Items;
use py_tree::expression::Texts;
use py_tree::fault::Stop;
use py_tree::statement::Module;
use py_tree::text::Text;
use std::alloc::{AllocError, Global};
use symbols::names::Names;
use symbols::outer::{OuterBinding, OuterKind};
use symbols::resolve::resolve;

/// What is decided of a module that stands on no cycle of imports, by its name and number, from what is decided of those that it needs.
pub fn decide<K: Known>(
    alloc: Global,
    tree: &Module,
    name: &Text,
    number: u32,
    known: &K,
) -> Result<Verdict, AllocError>
    requires lawful { lawful (module_of tree.now) ≡ true }
    // What is answered is so.
    ensures so { IfOk result (λ verdict. IsRight (K.decisions known.now) name.now number (module_of tree.now) verdict) }
    // What is so is answered.
    ensures exact { IfOk result (λ verdict. (decision : Decision) → IsRight (K.decisions known.now) name.now number (module_of tree.now) decision → decision ≡ verdict) }
{
    match published(alloc, tree, name, number, known) {
        Ok(globals) => Ok(Verdict::Published(globals)),
        Err(Stop::Fault(fault)) => Ok(Verdict::Refused(fault)),
        Err(Stop::Memory(error)) => Err(error),
    }
}

/// The globals of the module, where it isn't refused.
fn published<K: Known>(
    alloc: Global,
    tree: &Module,
    name: &Text,
    number: u32,
    known: &K,
) -> Result<Globals, Stop>
    requires lawful { lawful (module_of tree.now) ≡ true }
    ensures { IsDecided (K.decisions known.now) name.now number (module_of tree.now) result }
{
    let body = tree.body.as_slice();
    if let Some(fault) = first_import_fault(known, body) {
        return Err(Stop::Fault(fault));
    }
    let outer = outer(alloc, known, name, number, body)?;
    let resolved = resolve(alloc, tree, &outer)?;
    if let Some(fault) = unbuilt(body) {
        return Err(Stop::Fault(fault));
    }
    if let Some(fault) = spent(body) {
        return Err(Stop::Fault(fault));
    }
    let modules = module_names(alloc, outer.bindings.as_slice())?;
    Ok(held(alloc, &modules, resolved.globals)?)
}

/// The names that are bound to modules.
fn module_names(alloc: Global, bindings: &[OuterBinding]) -> Result<Names<'_>, AllocError>
    ensures { IfOk result (λ names. (name : Name) → among name names ≡ among name (rule.module_names bindings.now)) }
{
    let mut names = Names::new(alloc);
    for binding in bindings {
        put_module(binding, &mut names)?;
    }
    Ok(names)
}

/// Puts the name of a binding to a module.
fn put_module<'a>(binding: &'a OuterBinding, names: &mut Names<'a>) -> Result<(), AllocError>
    ensures { OnOk result (names.new ≡ with_module names.old binding.now) }
{
    if is_module(&binding.kind) {
        names.add(&binding.name)?;
    }
    Ok(())
}

fn is_module(kind: &OuterKind) -> bool
    ensures { result ≡ rule.is_module kind.now }
{
    match kind {
        OuterKind::Module(_) => true,
        _ => false,
    }
}

/// Each name, and whether it is bound to a module.
fn held(alloc: Global, modules: &Names<'_>, mut names: Texts) -> Result<Globals, AllocError>
    ensures { IfOk result (λ globals. globals ≡ rule.held modules.now names) }
{
    let mut rows = Vec::with_capacity(alloc, names.len())?;
    while let Some(name) = names.pop() {
        let holds_module = modules.has(&name);
        rows.push(ModuleGlobal { name, holds_module })?;
    }
    rows.reverse();
    Globals::from_rows(alloc, Items::from_vec(rows))
}
