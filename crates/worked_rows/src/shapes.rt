use anyhow::Result;
use py_tree::statement::{Branch, Clause, Module, Stmt, StmtKind};
use std::alloc::Global;
use std::fmt::Write;

/// The statements of a module in the order of the text: each as its line and what it is, with its blocks in braces. A branch of an `if`
/// stands behind `at` and its line.
pub fn shape(alloc: Global, module: &Module) -> Result<String> {
    let mut out = String::new(alloc);
    for statement in module.body.as_slice() {
        put_statement(statement, &mut out)?;
    }
    Ok(out)
}

fn word(kind: &StmtKind) -> &'static str {
    match kind {
        StmtKind::Pass => "pass",
        StmtKind::Break => "break",
        StmtKind::Continue => "continue",
        StmtKind::Return(_) => "return",
        StmtKind::Raise(_) => "raise",
        StmtKind::Import(_) => "import",
        StmtKind::From { .. } => "from",
        StmtKind::Eval(_) => "eval",
        StmtKind::Assign(..) => "assign",
        StmtKind::Annotate(..) => "annotate",
        StmtKind::Augment(..) => "augment",
        StmtKind::If { .. } => "if",
        StmtKind::While(..) => "while",
        StmtKind::For(..) => "for",
        StmtKind::Try(..) => "try",
        StmtKind::Def(_) => "def",
        StmtKind::Class(_) => "class",
    }
}

#[cycle(shape)]
fn put_statement(statement: &Stmt, out: &mut String) -> Result<()> {
    write!(out, " {} {}", statement.line, word(&statement.kind))?;
    put_blocks(&statement.kind, out)
}

#[cycle(shape)]
fn put_block(statements: &[Stmt], out: &mut String) -> Result<()> {
    out.push_str(" {")?;
    for statement in statements {
        put_statement(statement, out)?;
    }
    out.push_str(" }")?;
    Ok(())
}

#[cycle(shape)]
fn put_blocks(kind: &StmtKind, out: &mut String) -> Result<()> {
    match kind {
        StmtKind::If { branches, orelse } => {
            put_branches(branches.as_slice(), out)?;
            if orelse.is_empty() {
                return Ok(());
            }
            out.push_str(" else")?;
            put_block(orelse.as_slice(), out)
        }
        StmtKind::While(_, body) => put_block(body.as_slice(), out),
        StmtKind::For(_, _, body) => put_block(body.as_slice(), out),
        StmtKind::Try(body, clauses) => {
            put_block(body.as_slice(), out)?;
            put_clauses(clauses.as_slice(), out)
        }
        StmtKind::Def(function) => put_block(function.get().body.as_slice(), out),
        StmtKind::Class(class) => put_block(class.get().body.as_slice(), out),
        _ => Ok(()),
    }
}

#[cycle(shape)]
fn put_branches(branches: &[Branch], out: &mut String) -> Result<()> {
    for branch in branches {
        write!(out, " at {}", branch.line)?;
        put_block(branch.body.as_slice(), out)?;
    }
    Ok(())
}

#[cycle(shape)]
fn put_clauses(clauses: &[Clause], out: &mut String) -> Result<()> {
    for clause in clauses {
        out.push_str(match &clause.matches {
            Some(_) => " except-e",
            None => " except",
        })?;
        put_block(clause.body.as_slice(), out)?;
    }
    Ok(())
}
