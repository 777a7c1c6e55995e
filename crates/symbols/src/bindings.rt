ghost use Rattle.std.specs.Prelude.{◌≡◌, ◌++◌, ◌∷◌, [], IfOk, OnOk, map};
ghost use Rattle.std.specs.List.{flat_map};
ghost use Rattle.py_tree.specs.Joined.{branches_of, clauses_of, kind_of, statements_of, target_of};
ghost use Rattle.symbols.specs.Bindings as spec;
ghost use Rattle.symbols.specs.Bindings.{alias_or, bound, branches_bindings, clauses_bindings, kind_bindings, member_binding, member_bindings, module_binding, target_bindings};
ghost use Rattle.symbols.specs.declared.binding.BindingKind.TheVariants as by;

use crate::binding::{Binding, BindingKind, Bindings};
use crate::words::{is_marker, is_word, static_name};
use py_tree::expression::Target;
use py_tree::statement::{Branch, Clause, Import, Stmt, StmtKind};
use py_tree::text::Text;
use std::alloc::{AllocError, Global};

/// The bindings of a block and of the blocks in it. The bodies of defs and classes are other scopes.
pub fn bindings_of(alloc: Global, body: &[Stmt]) -> Result<Bindings, AllocError>
    ensures { IfOk result (λ all. all ≡ spec.bindings (statements_of body.now)) }
{
    let mut all = Bindings::from_vec(Vec::with_capacity(alloc, body.len())?);
    put_block(body, alloc, &mut all)?;
    Ok(all)
}

#[cycle(bindings)]
fn put_block(body: &[Stmt], alloc: Global, all: &mut Bindings) -> Result<(), AllocError>
    ensures { OnOk result (all.new ≡ all.old ++ spec.bindings (statements_of body.now)) }
{
    for statement in body {
        put_statement(&statement.kind, statement.line, alloc, all)?;
    }
    Ok(())
}

#[cycle(bindings)]
fn put_statement(
    kind: &StmtKind,
    line: u32,
    alloc: Global,
    all: &mut Bindings,
) -> Result<(), AllocError>
    ensures { OnOk result (all.new ≡ all.old ++ kind_bindings line (kind_of kind.now)) }
{
    match kind {
        StmtKind::Import(names) => put_modules(alloc, line, names.as_slice(), all),
        StmtKind::From { module, names } => put_members(alloc, line, module, names.as_slice(), all),
        StmtKind::Assign(target, _) => put_target(alloc, line, target, all),
        StmtKind::Annotate(target, _, _) => put_target(alloc, line, target, all),
        StmtKind::Augment(target, _, _) => put_target(alloc, line, target, all),
        StmtKind::If { branches, orelse } => {
            put_branches(branches.as_slice(), alloc, all)?;
            put_block(orelse.as_slice(), alloc, all)
        }
        StmtKind::While(_, body) => put_block(body.as_slice(), alloc, all),
        StmtKind::For(target, _, body) => {
            put_target(alloc, line, target, all)?;
            put_block(body.as_slice(), alloc, all)
        }
        StmtKind::Try(body, clauses) => {
            put_block(body.as_slice(), alloc, all)?;
            put_clauses(clauses.as_slice(), line, alloc, all)
        }
        StmtKind::Def(function) => put_name(
            alloc,
            line,
            BindingKind::Def,
            &function.get().name,
            all,
        ),
        StmtKind::Class(class) => put_name(alloc, line, BindingKind::Class, &class.get().name, all),
        _ => Ok(()),
    }
}

#[cycle(bindings)]
fn put_branches(branches: &[Branch], alloc: Global, all: &mut Bindings) -> Result<(), AllocError>
    ensures { OnOk result (all.new ≡ all.old ++ branches_bindings (branches_of branches.now)) }
{
    for branch in branches {
        put_block(branch.body.as_slice(), alloc, all)?;
    }
    Ok(())
}

/// Puts the names of the clauses, which have the line of their `try`, and what their blocks bind.
#[cycle(bindings)]
fn put_clauses(
    clauses: &[Clause],
    line: u32,
    alloc: Global,
    all: &mut Bindings,
) -> Result<(), AllocError>
    ensures { OnOk result (all.new ≡ all.old ++ clauses_bindings line (clauses_of clauses.now)) }
{
    for clause in clauses {
        if let Some(name) = &clause.bind {
            put_name(alloc, line, BindingKind::Other, name, all)?;
        }
        put_block(clause.body.as_slice(), alloc, all)?;
    }
    Ok(())
}

fn put_target(
    alloc: Global,
    line: u32,
    target: &Target,
    all: &mut Bindings,
) -> Result<(), AllocError>
    ensures { OnOk result (all.new ≡ all.old ++ target_bindings line (target_of target.now)) }
{
    match target {
        Target::Name(name) => put_name(alloc, line, BindingKind::Other, name, all),
        Target::Names(names) => put_names(alloc, line, names.as_slice(), all),
        Target::Attr(_, _) => Ok(()),
        Target::Index(_, _) => Ok(()),
    }
}

fn put_names(alloc: Global, line: u32, names: &[Text], all: &mut Bindings) -> Result<(), AllocError>
    ensures { OnOk result (all.new ≡ all.old ++ map (bound line by.Other) names.now) }
{
    for name in names {
        put_name(alloc, line, BindingKind::Other, name, all)?;
    }
    Ok(())
}

pub(crate) fn put_name(
    alloc: Global,
    line: u32,
    kind: BindingKind,
    name: &Text,
    all: &mut Bindings,
) -> Result<(), AllocError>
    ensures { OnOk result (all.new ≡ all.old ++ bound line kind name.now ∷ []) }
{
    all.push(Binding {
        name: name.copy(alloc)?,
        line,
        kind,
        static_name: None,
    })
}

/// Puts what an `import` binds. A marker binds nothing.
fn put_modules(
    alloc: Global,
    line: u32,
    imports: &[Import],
    all: &mut Bindings,
) -> Result<(), AllocError>
    ensures { OnOk result (all.new ≡ all.old ++ flat_map (module_binding line) imports.now) }
{
    for import in imports {
        if !is_marker_import(import) {
            put_name(alloc, line, BindingKind::Import, bound_name(import), all)?;
        }
    }
    Ok(())
}

/// Puts what a `from` binds. One from `__future__` binds nothing.
fn put_members(
    alloc: Global,
    line: u32,
    from: &Text,
    imports: &[Import],
    all: &mut Bindings,
) -> Result<(), AllocError>
    ensures { OnOk result (all.new ≡ all.old ++ member_bindings line from.now imports.now) }
{
    if is_word(from, b"__future__") {
        return Ok(());
    }
    put_each_member(alloc, line, from, imports, all)
}

fn put_each_member(
    alloc: Global,
    line: u32,
    from: &Text,
    imports: &[Import],
    all: &mut Bindings,
) -> Result<(), AllocError>
    ensures { OnOk result (all.new ≡ all.old ++ map (member_binding line from.now) imports.now) }
{
    for import in imports {
        all.push(Binding {
            name: bound_name(import).copy(alloc)?,
            line,
            kind: BindingKind::Import,
            static_name: static_name(from, &import.name),
        })?;
    }
    Ok(())
}

/// Whether a module that is imported is a marker. One with an alias is none.
pub fn is_marker_import(import: &Import) -> bool
    ensures { result ≡ spec.is_marker_import import.now }
{
    import.alias.is_none() && is_marker(&import.name)
}

/// The name that an import binds.
pub fn bound_name(import: &Import) -> &Text
    ensures { result.now ≡ alias_or import.now.alias import.now.name }
{
    match &import.alias {
        Some(alias) => alias,
        None => &import.name,
    }
}
