ghost use Rattle.std.specs.Prelude.{◌≡◌, ◌+◌, ◌++◌, ◌∷◌, [], ℕ, OnOk};
ghost use Rattle.py_tree.specs.Syntax as x;
ghost use Rattle.py_tree.specs.Joined.{branches_of, clauses_of, expression_of, kind_of, maybe_of, statements_of, target_of};
ghost use Rattle.bytecode.specs.declared.instr.Instr.TheVariants as i;
ghost use Rattle.compile_plain.specs.Assignments.{assign_end};
ghost use Rattle.compile_plain.specs.Cells.{cell, line_code, line_end};
ghost use Rattle.compile_plain.specs.Expressions.{expr_code, expr_end};
ghost use Rattle.compile_plain.specs.Names.{line_in};
ghost use Rattle.compile_plain.specs.Statements.{branches_code, branches_end, clauses_code, clauses_end, kind_code, kind_end, rows_code, rows_end};
ghost use Rattle.compile_plain.specs.Trees.{form_code, form_end, is_for, is_if, is_try, is_while, step_code, trial_code, trial_end, value_code};
ghost use Rattle.compile_plain.specs.Scopes.{names_of};

use crate::assigns::{put_assign, put_augment};
use crate::block::{Block, next};
use crate::defs::{put_class, put_def};
use crate::ends::end_of;
use crate::exprs::put_expr;
use crate::imports::{put_imports, put_member_imports};
use crate::row_ends::{end_of_branches, end_of_clauses, end_of_line, end_of_rows, end_of_turn};
use crate::site::Site;
use bytecode::instr::Instr;
use py_tree::expression::{Expr, Target};
use py_tree::statement::{Branch, Clause, Stmt, StmtKind};
use py_tree::text::Text;
use std::alloc::AllocError;

/// Puts the code of the statements of a block.
#[cycle(stmts)]
pub(crate) fn put_rows(body: &[Stmt], site: &Site<'_>, block: &mut Block) -> Result<(), AllocError>
    ensures cells { OnOk result (block.new.cells ≡ block.old.cells ++ rows_code (names_of site.now.scope.now) site.now.targets block.old.end (statements_of body.now)) }
    ensures end { OnOk result (block.new.end ≡ rows_end (names_of site.now.scope.now) block.old.end (statements_of body.now)) }
{
    for statement in body {
        site.put(Instr::Begin(site.scope.line(statement.line)), block)?;
        put_kind(&statement.kind, statement.line, site, block)?;
    }
    Ok(())
}

/// Puts the code of a statement behind its beginning.
#[cycle(stmts)]
fn put_kind(
    kind: &StmtKind,
    line: u32,
    site: &Site<'_>,
    block: &mut Block,
) -> Result<(), AllocError>
    ensures cells { OnOk result (block.new.cells ≡ block.old.cells ++ kind_code (names_of site.now.scope.now) site.now.targets line block.old.end (kind_of kind.now)) }
    ensures end { OnOk result (block.new.end ≡ kind_end (names_of site.now.scope.now) line block.old.end (kind_of kind.now)) }
{
    match kind {
        StmtKind::Pass => Ok(()),
        StmtKind::Break => site.put(site.targets.leaves(site.targets.broke), block),
        StmtKind::Continue => site.put(site.targets.leaves(site.targets.continued), block),
        StmtKind::Return(e) => put_return(e, site, block),
        StmtKind::Raise(e) => put_raise(e, site, block),
        StmtKind::Import(names) => put_imports(names.as_slice(), site, block),
        StmtKind::From { module, names } => put_member_imports(
            module,
            names.as_slice(),
            site,
            block,
        ),
        StmtKind::Eval(e) => put_eval(e, site, block),
        StmtKind::Assign(target, e) => put_value(target, e, site, block),
        StmtKind::Annotate(_, _, None) => Ok(()),
        StmtKind::Annotate(target, _, Some(e)) => put_value(target, e.get(), site, block),
        StmtKind::Augment(target, operator, e) => put_augment(target, *operator, e, site, block),
        StmtKind::If { .. } => put_if(kind, line, site, block),
        StmtKind::While(_, _) => put_while(kind, line, site, block),
        StmtKind::For(_, _, _) => put_for(kind, line, site, block),
        StmtKind::Try(_, _) => put_try(kind, line, site, block),
        StmtKind::Def(f) => put_def(f.get(), site, block),
        StmtKind::Class(class) => put_class(class.get(), site, block),
    }
}

fn put_return(e: &Option<Expr>, site: &Site<'_>, block: &mut Block) -> Result<(), AllocError>
    ensures cells { OnOk result ((line : ℕ) → block.new.cells ≡ block.old.cells ++ kind_code (names_of site.now.scope.now) site.now.targets line block.old.end (x.Return (maybe_of e.now))) }
    ensures end { OnOk result ((line : ℕ) → block.new.end ≡ kind_end (names_of site.now.scope.now) line block.old.end (x.Return (maybe_of e.now))) }
{
    match e {
        None => site.put(Instr::Nil, block)?,
        Some(e) => put_expr(e, site, block)?,
    }
    let clauses = site.targets.in_block;
    site.put(Instr::Return { clauses }, block)
}

fn put_raise(e: &Option<Expr>, site: &Site<'_>, block: &mut Block) -> Result<(), AllocError>
    ensures cells { OnOk result ((line : ℕ) → block.new.cells ≡ block.old.cells ++ kind_code (names_of site.now.scope.now) site.now.targets line block.old.end (x.Raise (maybe_of e.now))) }
    ensures end { OnOk result ((line : ℕ) → block.new.end ≡ kind_end (names_of site.now.scope.now) line block.old.end (x.Raise (maybe_of e.now))) }
{
    match e {
        None => site.put(Instr::ThrowAgain, block),
        Some(e) => {
            put_expr(e, site, block)?;
            site.put(Instr::Make, block)?;
            site.put(Instr::Throw, block)
        }
    }
}

fn put_eval(e: &Expr, site: &Site<'_>, block: &mut Block) -> Result<(), AllocError>
    ensures cells { OnOk result (block.new.cells ≡ block.old.cells ++ (expr_code (names_of site.now.scope.now) site.now.targets.raised block.old.end (expression_of e.now) ++ cell site.now.targets.raised i.DropTop ∷ [])) }
    ensures end { OnOk result (block.new.end ≡ expr_end (names_of site.now.scope.now) block.old.end (expression_of e.now) + 1) }
{
    put_expr(e, site, block)?;
    site.put(Instr::DropTop, block)
}

/// Puts the code of an assignment of a value.
fn put_value(
    target: &Target,
    e: &Expr,
    site: &Site<'_>,
    block: &mut Block,
) -> Result<(), AllocError>
    ensures cells { OnOk result (block.new.cells ≡ block.old.cells ++ value_code (names_of site.now.scope.now) site.now.targets.raised block.old.end (target_of target.now) (expression_of e.now)) }
    ensures end { OnOk result (block.new.end ≡ assign_end (names_of site.now.scope.now) (expr_end (names_of site.now.scope.now) block.old.end (expression_of e.now)) (target_of target.now)) }
{
    put_expr(e, site, block)?;
    put_assign(target, site, block)
}

/// Puts the line of a test that stands behind the body of its loop, or of the clauses of a `try`.
fn put_line(line: u32, site: &Site<'_>, block: &mut Block) -> Result<(), AllocError>
    ensures cells { OnOk result (block.new.cells ≡ block.old.cells ++ line_code site.now.targets.raised (line_in site.now.scope.now.locals line)) }
    ensures end { OnOk result (block.new.end ≡ line_end block.old.end (line_in site.now.scope.now.locals line)) }
{
    match site.scope.line(line) {
        None => Ok(()),
        Some(line) => site.put(Instr::AtLine(line), block),
    }
}

#[cycle(stmts)]
fn put_if(kind: &StmtKind, line: u32, site: &Site<'_>, block: &mut Block) -> Result<(), AllocError>
    ensures cells { OnOk result (block.new.cells ≡ block.old.cells ++ form_code is_if (names_of site.now.scope.now) site.now.targets line block.old.end (kind_of kind.now)) }
    ensures end { OnOk result (block.new.end ≡ form_end is_if (names_of site.now.scope.now) line block.old.end (kind_of kind.now)) }
{
    if let StmtKind::If { branches, orelse } = kind {
        let other = end_of_branches(branches.as_slice(), site.scope, block.end)?;
        let end = end_of_rows(orelse.as_slice(), site.scope, other)?;
        put_branches(branches.as_slice(), end, site, block)?;
        put_rows(orelse.as_slice(), site, block)?;
    }
    Ok(())
}

#[cycle(stmts)]
fn put_branches(
    branches: &[Branch],
    end: u32,
    site: &Site<'_>,
    block: &mut Block,
) -> Result<(), AllocError>
    ensures cells { OnOk result (block.new.cells ≡ block.old.cells ++ branches_code (names_of site.now.scope.now) site.now.targets end block.old.end (branches_of branches.now)) }
    ensures end { OnOk result (block.new.end ≡ branches_end (names_of site.now.scope.now) block.old.end (branches_of branches.now)) }
{
    for branch in branches {
        put_line(branch.line, site, block)?;
        put_expr(&branch.test, site, block)?;
        let next_one = next(end_of_rows(branch.body.as_slice(), site.scope, next(block.end)?)?)?;
        site.put(Instr::JumpUnless(next_one), block)?;
        put_rows(branch.body.as_slice(), site, block)?;
        site.put(Instr::Jump(end), block)?;
    }
    Ok(())
}

#[cycle(stmts)]
fn put_while(
    kind: &StmtKind,
    line: u32,
    site: &Site<'_>,
    block: &mut Block,
) -> Result<(), AllocError>
    ensures cells { OnOk result (block.new.cells ≡ block.old.cells ++ form_code is_while (names_of site.now.scope.now) site.now.targets line block.old.end (kind_of kind.now)) }
    ensures end { OnOk result (block.new.end ≡ form_end is_while (names_of site.now.scope.now) line block.old.end (kind_of kind.now)) }
{
    if let StmtKind::While(test, body) = kind {
        let first = next(block.end)?;
        let turn = end_of_rows(body.as_slice(), site.scope, first)?;
        let tested = end_of_line(line, site.scope, turn)?;
        let end = next(end_of(test, site.scope, tested)?)?;
        site.put(Instr::Jump(tested), block)?;
        let inner = &site.with(site.targets.in_while(end, turn));
        put_rows(body.as_slice(), inner, block)?;
        put_line(line, site, block)?;
        put_expr(test, site, block)?;
        site.put(Instr::TurnIf(first), block)?;
    }
    Ok(())
}

#[cycle(stmts)]
fn put_for(kind: &StmtKind, line: u32, site: &Site<'_>, block: &mut Block) -> Result<(), AllocError>
    ensures cells { OnOk result (block.new.cells ≡ block.old.cells ++ form_code is_for (names_of site.now.scope.now) site.now.targets line block.old.end (kind_of kind.now)) }
    ensures end { OnOk result (block.new.end ≡ form_end is_for (names_of site.now.scope.now) line block.old.end (kind_of kind.now)) }
{
    if let StmtKind::For(target, e, body) = kind {
        put_iterate(e.get(), site, block)?;
        let first = next(block.end)?;
        let turn = end_of_turn(target, body.as_slice(), site.scope, first)?;
        let step = end_of_line(line, site.scope, turn)?;
        let inner = &site.with(site.targets.in_for(next(step)?, turn)?);
        inner.put(Instr::Jump(step), block)?;
        put_assign(target, inner, block)?;
        put_rows(body.as_slice(), inner, block)?;
        put_step(line, first, inner, block)?;
    }
    Ok(())
}

/// Puts what begins a loop over the items of an expression.
fn put_iterate(e: &Expr, site: &Site<'_>, block: &mut Block) -> Result<(), AllocError>
    ensures cells { OnOk result (block.new.cells ≡ block.old.cells ++ (expr_code (names_of site.now.scope.now) site.now.targets.raised block.old.end (expression_of e.now) ++ cell site.now.targets.raised i.Iterate ∷ [])) }
    ensures end { OnOk result (block.new.end ≡ expr_end (names_of site.now.scope.now) block.old.end (expression_of e.now) + 1) }
{
    put_expr(e, site, block)?;
    site.put(Instr::Iterate, block)
}

/// Puts what steps to the next item of a loop whose turns begin at a place, and ends it.
fn put_step(line: u32, first: u32, site: &Site<'_>, block: &mut Block) -> Result<(), AllocError>
    ensures cells { OnOk result (block.new.cells ≡ block.old.cells ++ step_code site.now.targets.raised (line_in site.now.scope.now.locals line) first) }
    ensures end { OnOk result (block.new.end ≡ line_end block.old.end (line_in site.now.scope.now.locals line) + 1 + 1) }
{
    put_line(line, site, block)?;
    site.put(Instr::Next(first), block)?;
    site.put(Instr::EndLoop, block)
}

#[cycle(stmts)]
fn put_try(kind: &StmtKind, line: u32, site: &Site<'_>, block: &mut Block) -> Result<(), AllocError>
    ensures cells { OnOk result (block.new.cells ≡ block.old.cells ++ form_code is_try (names_of site.now.scope.now) site.now.targets line block.old.end (kind_of kind.now)) }
    ensures end { OnOk result (block.new.end ≡ form_end is_try (names_of site.now.scope.now) line block.old.end (kind_of kind.now)) }
{
    if let StmtKind::Try(body, clauses) = kind {
        let behind = next(end_of_rows(body.as_slice(), site.scope, block.end)?)?;
        let first = end_of_line(line, site.scope, behind)?;
        let release = end_of_clauses(clauses.as_slice(), site.scope, first)?;
        let body_site = &site.with(site.targets.in_try(behind));
        put_rows(body.as_slice(), body_site, block)?;
        site.put(Instr::Jump(next(release)?), block)?;
        let inner = &site.with(site.targets.in_clauses()?);
        put_line(line, inner, block)?;
        put_clauses(clauses.as_slice(), release, inner, block)?;
        inner.put(Instr::PassOn, block)?;
        inner.put(Instr::Release, block)?;
    }
    Ok(())
}

/// Puts the code of except clauses, behind each of which it goes on at the release.
#[cycle(stmts)]
fn put_clauses(
    clauses: &[Clause],
    release: u32,
    site: &Site<'_>,
    block: &mut Block,
) -> Result<(), AllocError>
    ensures cells { OnOk result (block.new.cells ++ cell site.now.targets.raised i.PassOn ∷ [] ≡ block.old.cells ++ clauses_code (names_of site.now.scope.now) site.now.targets release block.old.end (clauses_of clauses.now)) }
    ensures end { OnOk result (block.new.end + 1 ≡ clauses_end (names_of site.now.scope.now) block.old.end (clauses_of clauses.now)) }
{
    for clause in clauses {
        put_trial(
            &clause.matches,
            &clause.bind,
            clause.body.as_slice(),
            site,
            block,
        )?;
        put_rows(clause.body.as_slice(), site, block)?;
        site.put(Instr::Jump(release), block)?;
    }
    Ok(())
}

/// Puts what tries whether a clause of that body takes the exception, and what binds its name then.
fn put_trial(
    matches: &Option<Expr>,
    name: &Option<Text>,
    body: &[Stmt],
    site: &Site<'_>,
    block: &mut Block,
) -> Result<(), AllocError>
    ensures cells { OnOk result (block.new.cells ≡ block.old.cells ++ trial_code (names_of site.now.scope.now) site.now.targets.raised block.old.end (maybe_of matches.now) name.now (statements_of body.now)) }
    ensures end { OnOk result (block.new.end ≡ trial_end (names_of site.now.scope.now) block.old.end (maybe_of matches.now)) }
{
    if let Some(e) = matches {
        put_expr(e, site, block)?;
        let first = next(next(block.end)?)?;
        let next_one = next(end_of_rows(body, site.scope, first)?)?;
        site.put(Instr::TakesElse(next_one), block)?;
    }
    site.put(
        Instr::Take(site.scope.maybe_variable(site.alloc, name)?),
        block,
    )
}
