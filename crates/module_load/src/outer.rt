ghost use Rattle.std.specs.Prelude.{◌≡◌, ◌++◌, [], ◌∷◌, IfOk, OnOk, map};
ghost use Rattle.std.specs.List.{flat_map};
ghost use Rattle.std.specs.Option.{option_copied};
ghost use Rattle.py_tree.specs.Joined.{kind_of, statement_of, statements_of};
ghost use Rattle.module_load.specs.Outers as rule;

use crate::globals::ModuleGlobal;
use crate::import_faults::top_imports;
use crate::known::Known;
use crate::verdict::Verdict;
use py_tree::statement::{Import, Stmt, StmtKind};
use py_tree::text::Text;
use std::alloc::{AllocError, Global};
use symbols::bindings::{bound_name, is_marker_import};
use symbols::outer::{ModuleClasses, Outer, OuterBinding, OuterBindings, OuterKind};
use symbols::words::{is_word, static_name};

/// What the imports of a module's top part bind.
pub(crate) fn outer<K: Known>(
    alloc: Global,
    known: &K,
    name: &Text,
    number: u32,
    body: &[Stmt],
) -> Result<Outer, AllocError>
    ensures { IfOk result (λ outer. outer ≡ rule.outer (K.decisions known.now) name.now number (statements_of body.now)) }
{
    let mut bindings = OuterBindings::new(alloc);
    put_statements(alloc, known, top_imports(body), &mut bindings)?;
    Ok(Outer {
        name: name.copy(alloc)?,
        number,
        bindings,
    })
}

fn put_statements<K: Known>(
    alloc: Global,
    known: &K,
    imports: &[Stmt],
    bindings: &mut OuterBindings,
) -> Result<(), AllocError>
    ensures { OnOk result (bindings.new ≡ bindings.old ++ flat_map (rule.statement_bindings (K.decisions known.now)) (map statement_of imports.now)) }
{
    for statement in imports {
        put_statement(alloc, known, &statement.kind, bindings)?;
    }
    Ok(())
}

/// Puts what a statement binds.
fn put_statement<K: Known>(
    alloc: Global,
    known: &K,
    kind: &StmtKind,
    bindings: &mut OuterBindings,
) -> Result<(), AllocError>
    ensures { OnOk result (bindings.new ≡ bindings.old ++ rule.kind_bindings (K.decisions known.now) (kind_of kind.now)) }
{
    match kind {
        StmtKind::Import(names) => put_modules(alloc, names.as_slice(), bindings),
        StmtKind::From { module, names } => {
            put_members(alloc, known, module, names.as_slice(), bindings)
        }
        _ => Ok(()),
    }
}

/// Puts what an `import` binds. A marker binds nothing.
fn put_modules(
    alloc: Global,
    names: &[Import],
    bindings: &mut OuterBindings,
) -> Result<(), AllocError>
    ensures { OnOk result (bindings.new ≡ bindings.old ++ flat_map rule.module_bindings names.now) }
{
    for import in names {
        if !is_marker_import(import) {
            let name = bound_name(import).copy(alloc)?;
            let kind = module_kind(alloc);
            bindings.push(OuterBinding { name, kind })?;
        }
    }
    Ok(())
}

/// A module without classes.
fn module_kind(alloc: Global) -> OuterKind
    ensures { result ≡ rule.module_kind }
{
    OuterKind::Module(ModuleClasses::new(alloc))
}

/// Puts what a `from` binds. One from `__future__` binds nothing.
fn put_members<K: Known>(
    alloc: Global,
    known: &K,
    from: &Text,
    names: &[Import],
    bindings: &mut OuterBindings,
) -> Result<(), AllocError>
    ensures { OnOk result (bindings.new ≡ bindings.old ++ rule.members_bindings (K.decisions known.now) from.now names.now) }
{
    if is_word(from, b"__future__") {
        return Ok(());
    }
    put_each_member(alloc, known.verdict(from), from, names, bindings)
}

/// Puts what these names bind of a module of which this is decided.
fn put_each_member(
    alloc: Global,
    verdict: Option<&Verdict>,
    from: &Text,
    names: &[Import],
    bindings: &mut OuterBindings,
) -> Result<(), AllocError>
    ensures { OnOk result (bindings.new ≡ bindings.old ++ flat_map (rule.member_bindings (λ _. option_copied verdict.entry) from.now) names.now) }
{
    for import in names {
        if static_name(from, &import.name).is_none() {
            let name = bound_name(import).copy(alloc)?;
            let kind = member_kind(alloc, &import.name, verdict);
            bindings.push(OuterBinding { name, kind })?;
        }
    }
    Ok(())
}

/// What the global of that name holds in a module of which this is decided.
fn member_kind(alloc: Global, name: &Text, verdict: Option<&Verdict>) -> OuterKind
    ensures { result ≡ rule.member_kind name.now (option_copied verdict.entry) }
{
    match verdict {
        Some(Verdict::Published(globals)) => { global_kind(alloc, globals.named(name)) }
        _ => OuterKind::Other,
    }
}

fn global_kind(alloc: Global, global: Option<&ModuleGlobal>) -> OuterKind
    ensures { result ≡ rule.global_kind (option_copied global.entry) }
{
    match global {
        Some(global) if global.holds_module => module_kind(alloc),
        _ => OuterKind::Other,
    }
}
