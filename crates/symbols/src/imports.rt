ghost use Rattle.std.specs.Prelude.{◌≡◌, ◌++◌, IfOk, OnOk};
ghost use Rattle.std.specs.List.{flat_map, list_any};
ghost use Rattle.py_tree.specs.Joined.{function_of, kind_of, statements_of};
ghost use Rattle.py_tree.specs.TopPart as top;
ghost use Rattle.symbols.specs.Faults as spec;
ghost use Rattle.symbols.specs.ModuleKinds.{imports_static, is_static_marker, module_kind, names_static};
ghost use Rattle.symbols.specs.Located.{located};
ghost use Rattle.symbols.specs.Views.{seen};

use crate::functions::FunctionAt;
use crate::resolved::ModuleKind;
use crate::scope::scope_of;
use crate::special_lines::{Lines, put_line};
use crate::words::is_word;
use py_tree::expression::Expr;
use py_tree::statement::{Function, Import, Stmt, StmtKind};
use std::alloc::{AllocError, Global};

/// The lines of the import statements that stand below the top part or in a function.
pub(crate) fn late_imports(
    alloc: Global,
    body: &[Stmt],
    functions: &[FunctionAt<'_>],
) -> Result<Lines, AllocError>
    ensures { IfOk result (λ lines. lines ≡ spec.import_lines (top.below_top_part (statements_of body.now)) ++ spec.imports_of (located functions.now)) }
{
    let mut lines = Lines::new(alloc);
    put_block(alloc, below_top_part(body), &mut lines)?;
    for known in functions {
        put_body(alloc, known.function, &mut lines)?;
    }
    Ok(lines)
}

fn put_body(alloc: Global, function: &Function, lines: &mut Lines) -> Result<(), AllocError>
    ensures { OnOk result (lines.new ≡ lines.old ++ spec.imports_in (function_of function.now)) }
{
    put_block(alloc, function.body.as_slice(), lines)
}

/// Puts the lines of the import statements in a block and the blocks in it.
fn put_block(alloc: Global, body: &[Stmt], lines: &mut Lines) -> Result<(), AllocError>
    ensures { OnOk result (lines.new ≡ lines.old ++ spec.import_lines (statements_of body.now)) }
{
    let scope = scope_of(alloc, body)?;
    put_imports(scope.as_slice(), lines)
}

fn put_imports(scope: &[&Stmt], lines: &mut Lines) -> Result<(), AllocError>
    ensures { OnOk result (lines.new ≡ lines.old ++ flat_map spec.import_line (seen scope.now)) }
{
    for statement in scope {
        put_line(statement.line, is_import(&statement.kind), lines)?;
    }
    Ok(())
}

/// By which rules a module is checked.
pub fn module_kind(body: &[Stmt]) -> ModuleKind
    ensures { result ≡ module_kind (statements_of body.now) }
{
    if any_static(behind_docstring(body)) {
        ModuleKind::Static
    } else {
        ModuleKind::Strict
    }
}

/// Whether one of the import statements at the front is of `__static__`.
fn any_static(body: &[Stmt]) -> bool
    ensures { result ≡ list_any imports_static (top.imports_at_front (statements_of body.now)) }
{
    for statement in body {
        if !is_import(&statement.kind) {
            return false;
        }
        if names_static(&statement.kind) {
            return true;
        }
    }
    false
}

fn names_static(kind: &StmtKind) -> bool
    ensures { result ≡ names_static (kind_of kind.now) }
{
    match kind {
        StmtKind::Import(names) => is_static_marker(names.as_slice()),
        _ => false,
    }
}

fn is_static_marker(names: &[Import]) -> bool
    ensures { result ≡ is_static_marker names.now }
{
    match names {
        [import] => import.alias.is_none() && is_word(&import.name, b"__static__"),
        _ => false,
    }
}

/// Whether it is an import statement.
pub fn is_import(kind: &StmtKind) -> bool
    ensures { result ≡ top.is_import (kind_of kind.now) }
{
    match kind {
        StmtKind::Import(_) => true,
        StmtKind::From { .. } => true,
        _ => false,
    }
}

/// What stands below the top part.
fn below_top_part(body: &[Stmt]) -> &[Stmt]
    ensures { statements_of result.now ≡ top.below_top_part (statements_of body.now) }
{
    behind_imports(behind_docstring(body))
}

/// What stands behind a docstring, and all where there is none.
fn behind_docstring(body: &[Stmt]) -> &[Stmt]
    ensures { statements_of result.now ≡ top.behind_docstring (statements_of body.now) }
{
    match body {
        [
            Stmt {
                kind: StmtKind::Eval(Expr::Str(_)),
                ..
            },
            rest @ ..,
        ] => rest,
        body => body,
    }
}

/// What stands behind the import statements at the front.
fn behind_imports(body: &[Stmt]) -> &[Stmt]
    ensures { statements_of result.now ≡ top.behind_imports (statements_of body.now) }
{
    for (place, statement) in body.iter().enumerate() {
        if !is_import(&statement.kind) {
            return &body[place..];
        }
    }
    &[]
}
