ghost use Rattle.std.specs.Prelude.{◌≡◌, Some, map, slice_get};
ghost use Rattle.std.specs.Option.{option_copied};
ghost use Rattle.std.specs.List.{find};
ghost use Rattle.py_tree.specs.Joined.{kind_of, statement_of, statements_of};
ghost use Rattle.py_tree.specs.declared.code.Code.TheVariants as code;
ghost use Rattle.module_load.specs.Bodies as rule;

use crate::top_part::behind_docstring;
use py_tree::code::Code;
use py_tree::expression::{Expr, Target};
use py_tree::fault::Fault;
use py_tree::statement::{Stmt, StmtKind};
use symbols::imports::is_import;

/// So many statements of a body are run.
const IMPORT_FUEL: usize = 50_000;

/// The first statement behind the docstring that isn't built.
pub(crate) fn unbuilt(body: &[Stmt]) -> Option<Fault>
    ensures { result ≡ rule.unbuilt (statements_of body.now) }
{
    first_unbuilt(behind_docstring(body))
}

fn first_unbuilt(body: &[Stmt]) -> Option<Fault>
    ensures { result ≡ rule.fault_at code.NotBuilt (find rule.is_unbuilt (map statement_of body.now)) }
{
    for statement in body {
        if !is_built(&statement.kind) {
            return Some(fault_at(statement, Code::NotBuilt));
        }
    }
    None
}

/// Whether it is an import statement, or an integer for a name.
fn is_built(kind: &StmtKind) -> bool
    ensures { result ≡ rule.is_built (kind_of kind.now) }
{
    match kind {
        StmtKind::Assign(Target::Name(_), Expr::Int(_)) => true,
        kind => is_import(kind),
    }
}

/// The first statement for which no fuel is left.
pub(crate) fn spent(body: &[Stmt]) -> Option<Fault>
    ensures { result ≡ rule.spent (statements_of body.now) }
{
    match statement_at(body, IMPORT_FUEL) {
        Some(statement) => Some(fault_at(statement, Code::FuelSpent)),
        None => None,
    }
}

/// The statement at that place, from 0.
fn statement_at(body: &[Stmt], place: usize) -> Option<&Stmt>
    ensures { option_copied result ≡ slice_get body.now place }
{
    body.get(place)
}

fn fault_at(statement: &Stmt, code: Code) -> Fault
    ensures { Some result ≡ rule.fault_at code (Some (statement_of statement.now)) }
{
    Fault {
        line: statement.line,
        code,
    }
}
