ghost use Rattle.std.specs.Prelude.{◌≡◌};
ghost use Rattle.std.specs.Str.{bytes_eq};
ghost use Rattle.py_tree.specs.Joined.{module_of, statement_of, statements_of};
ghost use Rattle.py_tree.specs.TopPart.{behind_docstring, imports_at_front};
ghost use Rattle.module_load.specs.Markers as spec;

use py_tree::expression::Expr;
use py_tree::statement::{Import, Module, Stmt, StmtKind};
use py_tree::text::Text;

const STRICT: [char; 10] = ['_', '_', 's', 't', 'r', 'i', 'c', 't', '_', '_'];

const STATIC: [char; 10] = ['_', '_', 's', 't', 'a', 't', 'i', 'c', '_', '_'];

const FUTURE: [char; 10] = ['_', '_', 'f', 'u', 't', 'u', 'r', 'e', '_', '_'];

/// Whether a marker stands in its place: before every import but those from `__future__`.
pub(crate) fn is_marked(module: &Module) -> bool
    ensures { result ≡ spec.is_marked (module_of module.now) }
{
    marker_leads(behind_docstring(module.body.as_slice()))
}

/// What stands behind a docstring, and all where there is none.
pub(crate) fn behind_docstring(body: &[Stmt]) -> &[Stmt]
    ensures { statements_of result.now ≡ behind_docstring (statements_of body.now) }
{
    match body {
        [
            Stmt {
                kind: StmtKind::Eval(Expr::Str(_)),
                ..
            },
            rest @ ..,
        ] => rest,
        body => body,
    }
}

/// Whether a marker is the first of the imports at the front that isn't from `__future__`.
fn marker_leads(body: &[Stmt]) -> bool
    ensures { result ≡ spec.marker_leads (imports_at_front (statements_of body.now)) }
{
    for statement in body {
        if is_marker(statement) {
            return true;
        }
        if !is_from_future(statement) {
            return false;
        }
    }
    false
}

fn is_marker(statement: &Stmt) -> bool
    ensures { result ≡ spec.is_marker (statement_of statement.now) }
{
    match &statement.kind {
        StmtKind::Import(names) => is_marker_alone(names.as_slice()),
        _ => false,
    }
}

/// Whether these are one marker with no alias.
pub(crate) fn is_marker_alone(names: &[Import]) -> bool
    ensures { result ≡ spec.is_marker_alone names.now }
{
    match names {
        [import] => import.alias.is_none() && is_marker_name(&import.name),
        _ => false,
    }
}

fn is_marker_name(name: &Text) -> bool
    ensures { result ≡ spec.is_marker_name name.now }
{
    is_spelled(name, &STRICT) || is_spelled(name, &STATIC)
}

fn is_from_future(statement: &Stmt) -> bool
    ensures { result ≡ spec.is_from_future (statement_of statement.now) }
{
    match &statement.kind {
        StmtKind::From { module, .. } => is_spelled(module, &FUTURE),
        _ => false,
    }
}

fn is_spelled(name: &Text, word: &[char]) -> bool
    ensures { result ≡ bytes_eq name.now word.now }
{
    name.as_slice() == word
}
