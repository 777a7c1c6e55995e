ghost use Rattle.std.specs.Prelude.{◌≡◌, ◌++◌, IfOk, OnOk};
ghost use Rattle.py_tree.specs.Joined.{branches_of, clauses_of, kind_of, statements_of};
ghost use Rattle.py_tree.specs.Order.{in_blocks, in_branches, in_clauses, of_scope};
ghost use Rattle.symbols.specs.Views.{seen};

use py_tree::statement::{Branch, Clause, Stmt, StmtKind};
use std::alloc::{AllocError, Global};

/// The statements of a block and of the blocks in it, each before its own blocks. The bodies of defs and classes are other scopes.
pub fn scope_of(alloc: Global, body: &[Stmt]) -> Result<Vec<&Stmt>, AllocError>
    ensures { IfOk result (λ all. seen all.items ≡ of_scope (statements_of body.now)) }
{
    let mut all = Vec::with_capacity(alloc, body.len())?;
    put_block(body, &mut all)?;
    Ok(all)
}

#[cycle(scope)]
fn put_block<'a>(body: &'a [Stmt], all: &mut Vec<&'a Stmt>) -> Result<(), AllocError>
    ensures { OnOk result (seen all.new.items ≡ seen all.old.items ++ of_scope (statements_of body.now)) }
{
    for statement in body {
        all.push(statement)?;
        put_blocks(&statement.kind, all)?;
    }
    Ok(())
}

/// Puts the statements of the blocks of a statement.
#[cycle(scope)]
fn put_blocks<'a>(kind: &'a StmtKind, all: &mut Vec<&'a Stmt>) -> Result<(), AllocError>
    ensures { OnOk result (seen all.new.items ≡ seen all.old.items ++ in_blocks (kind_of kind.now)) }
{
    match kind {
        StmtKind::If { branches, orelse } => {
            put_branches(branches.as_slice(), all)?;
            put_block(orelse.as_slice(), all)
        }
        StmtKind::While(_, body) => put_block(body.as_slice(), all),
        StmtKind::For(_, _, body) => put_block(body.as_slice(), all),
        StmtKind::Try(body, clauses) => {
            put_block(body.as_slice(), all)?;
            put_clauses(clauses.as_slice(), all)
        }
        _ => Ok(()),
    }
}

#[cycle(scope)]
fn put_branches<'a>(branches: &'a [Branch], all: &mut Vec<&'a Stmt>) -> Result<(), AllocError>
    ensures { OnOk result (seen all.new.items ≡ seen all.old.items ++ in_branches (branches_of branches.now)) }
{
    for branch in branches {
        put_block(branch.body.as_slice(), all)?;
    }
    Ok(())
}

#[cycle(scope)]
fn put_clauses<'a>(clauses: &'a [Clause], all: &mut Vec<&'a Stmt>) -> Result<(), AllocError>
    ensures { OnOk result (seen all.new.items ≡ seen all.old.items ++ in_clauses (clauses_of clauses.now)) }
{
    for clause in clauses {
        put_block(clause.body.as_slice(), all)?;
    }
    Ok(())
}
