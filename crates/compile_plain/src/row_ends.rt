ghost use Rattle.std.specs.Prelude.{◌≡◌, IfOk};
ghost use Rattle.py_tree.specs.Joined.{branches_of, clauses_of, kind_of, maybe_of, statements_of, target_of};
ghost use Rattle.compile_plain.specs.Assignments.{assign_end};
ghost use Rattle.compile_plain.specs.Cells.{line_end};
ghost use Rattle.compile_plain.specs.Names.{line_in};
ghost use Rattle.compile_plain.specs.Statements.{branches_end, clauses_end, kind_end, rows_end};
ghost use Rattle.compile_plain.specs.Trees.{maybe_end, trial_end};
ghost use Rattle.compile_plain.specs.Scopes.{names_of};

use crate::assigns::{end_of_assign, end_of_augment};
use crate::block::next;
use crate::defs::{end_of_class, end_of_def};
use crate::ends::end_of;
use crate::imports::{end_of_imports, end_of_member_imports};
use crate::scope::Scope;
use py_tree::expression::{Expr, Target};
use py_tree::statement::{Branch, Clause, Stmt, StmtKind};
use std::alloc::AllocError;

/// The place behind the code of the statements of a block that begins at a place.
#[cycle(row_ends)]
pub(crate) fn end_of_rows(body: &[Stmt], scope: &Scope<'_>, place: u32) -> Result<u32, AllocError>
    ensures { IfOk result (λ end. end ≡ rows_end (names_of scope.now) place (statements_of body.now)) }
{
    let mut end = place;
    for statement in body {
        end = end_of_kind(&statement.kind, statement.line, scope, next(end)?)?;
    }
    Ok(end)
}

#[cycle(row_ends)]
fn end_of_kind(kind: &StmtKind, line: u32, scope: &Scope<'_>, place: u32) -> Result<u32, AllocError>
    ensures { IfOk result (λ end. end ≡ kind_end (names_of scope.now) line place (kind_of kind.now)) }
{
    match kind {
        StmtKind::Pass | StmtKind::Annotate(_, _, None) => Ok(place),
        StmtKind::Break | StmtKind::Continue => next(place),
        StmtKind::Return(e) => next(end_of_maybe(e, scope, place)?),
        StmtKind::Raise(None) => next(place),
        StmtKind::Raise(Some(e)) => next(next(end_of(e, scope, place)?)?),
        StmtKind::Import(names) => end_of_imports(names.as_slice(), place),
        StmtKind::From { module, names } => end_of_member_imports(module, names.as_slice(), place),
        StmtKind::Eval(e) => next(end_of(e, scope, place)?),
        StmtKind::Assign(target, e) => end_of_assign(target, scope, end_of(e, scope, place)?),
        StmtKind::Annotate(target, _, Some(e)) => {
            end_of_assign(target, scope, end_of(e.get(), scope, place)?)
        }
        StmtKind::Augment(target, _, e) => end_of_augment(target, e, scope, place),
        StmtKind::If { branches, orelse } => {
            let other = end_of_branches(branches.as_slice(), scope, place)?;
            end_of_rows(orelse.as_slice(), scope, other)
        }
        StmtKind::While(test, body) => {
            let turn = end_of_rows(body.as_slice(), scope, next(place)?)?;
            next(end_of(test, scope, end_of_line(line, scope, turn)?)?)
        }
        StmtKind::For(target, e, body) => {
            let first = next(next(end_of(e.get(), scope, place)?)?)?;
            let begin = end_of_assign(target, scope, first)?;
            let turn = end_of_rows(body.as_slice(), scope, begin)?;
            next(next(end_of_line(line, scope, turn)?)?)
        }
        StmtKind::Try(body, clauses) => {
            let behind = next(end_of_rows(body.as_slice(), scope, place)?)?;
            let first = end_of_line(line, scope, behind)?;
            next(end_of_clauses(clauses.as_slice(), scope, first)?)
        }
        StmtKind::Def(f) => end_of_def(f.get(), scope, place),
        StmtKind::Class(class) => end_of_class(class.get(), scope, place),
    }
}

/// Behind the code of a turn of a loop: the assignment to its target, and its body.
pub(crate) fn end_of_turn(
    target: &Target,
    body: &[Stmt],
    scope: &Scope<'_>,
    place: u32,
) -> Result<u32, AllocError>
    ensures { IfOk result (λ end. end ≡ rows_end (names_of scope.now) (assign_end (names_of scope.now) place (target_of target.now)) (statements_of body.now)) }
{
    let begin = end_of_assign(target, scope, place)?;
    end_of_rows(body, scope, begin)
}

/// Behind the code of the branches of an `if`.
#[cycle(row_ends)]
pub(crate) fn end_of_branches(
    branches: &[Branch],
    scope: &Scope<'_>,
    place: u32,
) -> Result<u32, AllocError>
    ensures { IfOk result (λ end. end ≡ branches_end (names_of scope.now) place (branches_of branches.now)) }
{
    let mut end = place;
    for branch in branches {
        let tested = end_of_line(branch.line, scope, end)?;
        let first = next(end_of(&branch.test, scope, tested)?)?;
        end = next(end_of_rows(branch.body.as_slice(), scope, first)?)?;
    }
    Ok(end)
}

/// Behind the code of the clauses of a `try`.
#[cycle(row_ends)]
pub(crate) fn end_of_clauses(
    clauses: &[Clause],
    scope: &Scope<'_>,
    place: u32,
) -> Result<u32, AllocError>
    ensures { IfOk result (λ end. end ≡ clauses_end (names_of scope.now) place (clauses_of clauses.now)) }
{
    let mut end = place;
    for clause in clauses {
        let first = end_of_trial(&clause.matches, scope, end)?;
        end = next(end_of_rows(clause.body.as_slice(), scope, first)?)?;
    }
    next(end)
}

/// Behind the code that tries whether a clause takes an exception.
fn end_of_trial(matches: &Option<Expr>, scope: &Scope<'_>, place: u32) -> Result<u32, AllocError>
    ensures { IfOk result (λ end. end ≡ trial_end (names_of scope.now) place (maybe_of matches.now)) }
{
    match matches {
        None => next(place),
        Some(e) => next(next(end_of(e, scope, place)?)?),
    }
}

/// Behind the code of an expression, or of None.
fn end_of_maybe(e: &Option<Expr>, scope: &Scope<'_>, place: u32) -> Result<u32, AllocError>
    ensures { IfOk result (λ end. end ≡ maybe_end (names_of scope.now) place (maybe_of e.now)) }
{
    match e {
        None => next(place),
        Some(e) => end_of(e, scope, place),
    }
}

/// Behind the line of a statement that is set again.
pub(crate) fn end_of_line(line: u32, scope: &Scope<'_>, place: u32) -> Result<u32, AllocError>
    ensures { IfOk result (λ end. end ≡ line_end place (line_in scope.now.locals line)) }
{
    match scope.line(line) {
        None => Ok(place),
        Some(_) => next(place),
    }
}
