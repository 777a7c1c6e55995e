ghost use Rattle.std.specs.Prelude.{◌≡◌, ◌∷◌, IfOk, option_map};
ghost use Rattle.py_tree.specs.Joined.{expression_of, kind_of, maybe_of, statements_of};
ghost use Rattle.py_tree.specs.Syntax.{Except, If, On, Tested, end_of_branches};
ghost use Rattle.py_blocks.specs.Machine.{branches_onto};
ghost use Rattle.py_blocks.specs.Machine as machine;
ghost use Rattle.py_blocks.specs.Views.{block_of, branches_of, clauses_of, context_of, done_of, last_of, owner_of};

use crate::context::Context;
use py_tree::expression::{Expr, Params, Target};
use py_tree::statement::{
    Branch, Branches, ClassDef, Clause, Clauses, Function, Stmt, StmtKind, Stmts,
};
use py_tree::text::Text;
use sqlite_items::Boxed;
use std::alloc::{AllocError, Global};

/// A block that is still open.
#[derive(Drop)]
pub(crate) struct Block {
    pub indent: u32,
    pub context: Context,
    /// Its statements, but for the last where that may still go on.
    pub done: Stmts,
    pub last: Last,
}

/// The last statement of a block, where it may still go on.
#[derive(Drop)]
pub(crate) enum Last {
    /// None may.
    Whole,
    /// An `if` that may take an `elif` or an `else`.
    If {
        line: u32,
        branches: Branches,
    },
    /// A `try` that may take a clause, and wants one where it has none.
    Try {
        line: u32,
        body: Stmts,
        clauses: Clauses,
    },
}

/// The head of an open block, with what was read of its statement before. `line` is that of the statement.
#[derive(Drop)]
pub(crate) enum Owner {
    /// `if` or `elif`, on the line `at`.
    Branch {
        line: u32,
        branches: Branches,
        at: u32,
        test: Expr,
    },
    Else {
        line: u32,
        branches: Branches,
    },
    While {
        line: u32,
        test: Expr,
    },
    For {
        line: u32,
        target: Target,
        iterable: Boxed<Expr>,
    },
    Try {
        line: u32,
    },
    Except {
        line: u32,
        body: Stmts,
        clauses: Clauses,
        matches: Option<Expr>,
        bind: Option<Text>,
    },
    Def {
        line: u32,
        name: Text,
        params: Params,
        result: Option<Expr>,
    },
    Class {
        line: u32,
        name: Text,
        base: Option<Expr>,
    },
}

impl Owner {
    /// The context of its block, where it stands in the context `outer` itself.
    pub fn inside(&self, outer: Context) -> Context
        ensures { context_of result ≡ machine.inside (context_of outer) (owner_of self.now) }
    {
        match self {
            Owner::Branch { .. } | Owner::Else { .. } | Owner::Try { .. } => outer,
            Owner::While { .. } | Owner::For { .. } => outer.looped(),
            Owner::Except { .. } => outer.claused(),
            Owner::Def { .. } => Context::function_level(),
            Owner::Class { .. } => Context::ClassFront,
        }
    }
}

impl Block {
    /// A block without an open statement.
    pub fn fresh(indent: u32, context: Context, done: Stmts) -> Block
        ensures { block_of result ≡ machine.fresh indent (context_of context) (done_of done) }
    {
        Block {
            indent,
            context,
            done,
            last: Last::Whole,
        }
    }

    /// The block with one statement more, which is whole.
    fn with(self, line: u32, kind: StmtKind) -> Result<Block, AllocError>
        ensures { IfOk result (λ b. block_of b ≡ machine.with_statement (On line (kind_of kind)) (block_of self)) }
    {
        let Block {
            indent,
            context,
            done,
            ..
        } = self;
        let done = with_statement(done, line, kind)?;
        Ok(Block::fresh(indent, context, done))
    }

    fn with_else(self, line: u32, branches: Branches, orelse: Stmts) -> Result<Block, AllocError>
        ensures { IfOk result (λ b. block_of b ≡ machine.put (machine.Orelse line (branches_of branches)) (statements_of orelse) (block_of self)) }
    {
        let Block {
            indent,
            context,
            done,
            ..
        } = self;
        let done = with_if(done, line, branches, orelse)?;
        Ok(Block::fresh(indent, context, done))
    }

    fn with_last(self, last: Last) -> Block
        ensures { block_of result ≡ record (block_of self) { last = last_of last } }
    {
        let Block {
            indent,
            context,
            done,
            ..
        } = self;
        Block {
            indent,
            context,
            done,
            last,
        }
    }

    /// The block in which a head stands, behind the head's block `body`.
    pub fn put(self, alloc: Global, owner: Owner, body: Stmts) -> Result<Block, AllocError>
        ensures { IfOk result (λ b. block_of b ≡ machine.put (owner_of owner) (statements_of body) (block_of self)) }
    {
        match owner {
            Owner::Branch {
                line,
                branches,
                at,
                test,
            } => {
                let branches = with_branch(branches, at, test, body)?;
                Ok(self.with_last(Last::If { line, branches }))
            }
            Owner::Else { line, branches } => self.with_else(line, branches, body),
            Owner::While { line, test } => self.with(line, StmtKind::While(test, body)),
            Owner::For {
                line,
                target,
                iterable,
            } => self.with(line, StmtKind::For(target, iterable, body)),
            Owner::Try { line } => Ok(self.with_last(Last::Try {
                line,
                body,
                clauses: Clauses::new(alloc),
            })),
            Owner::Except {
                line,
                body: tried,
                clauses,
                matches,
                bind,
            } => {
                let clauses = with_clause(clauses, matches, bind, body)?;
                Ok(self.with_last(Last::Try {
                    line,
                    body: tried,
                    clauses,
                }))
            }
            Owner::Def {
                line,
                name,
                params,
                result,
            } => {
                let function = Function {
                    name,
                    params,
                    result,
                    body,
                };
                self.with(line, StmtKind::Def(Boxed::new(alloc, function)?))
            }
            Owner::Class { line, name, base } => {
                let class = ClassDef { name, base, body };
                self.with(line, StmtKind::Class(Boxed::new(alloc, class)?))
            }
        }
    }
}

/// The statements of a block, where its last may end.
pub(crate) fn settled(alloc: Global, done: Stmts, last: Last) -> Result<Option<Stmts>, AllocError>
    ensures { IfOk result (λ all. option_map done_of all ≡ machine.settled (done_of done) (last_of last)) }
{
    match last {
        Last::Whole => Ok(Some(done)),
        Last::If { line, branches } => {
            Ok(Some(with_if(done, line, branches, Stmts::new(alloc))?))
        }
        Last::Try {
            line,
            body,
            clauses,
        } => settled_try(done, line, body, clauses),
    }
}

#[tactic(auto, using(crate::proofs::Whole::if_kind))]
fn with_if(done: Stmts, line: u32, branches: Branches, orelse: Stmts) -> Result<Stmts, AllocError>
    ensures { IfOk result (λ all. done_of all ≡ On line (If (branches_onto (branches_of branches) end_of_branches) (statements_of orelse)) ∷ done_of done) }
{
    with_statement(done, line, StmtKind::If { branches, orelse })
}

#[tactic(auto, using(crate::proofs::Whole::try_kind))]
fn settled_try(
    done: Stmts,
    line: u32,
    body: Stmts,
    clauses: Clauses,
) -> Result<Option<Stmts>, AllocError>
    ensures { IfOk result (λ all. option_map done_of all ≡ machine.settled (done_of done) (machine.OpenTry line (statements_of body) (clauses_of clauses))) }
{
    if clauses.is_empty() {
        return Ok(None);
    }
    Ok(Some(with_statement(done, line, StmtKind::Try(body, clauses))?))
}

#[tactic(auto, using(crate::proofs::Whole::statement_next))]
pub(crate) fn with_statement(
    mut done: Stmts,
    line: u32,
    kind: StmtKind,
) -> Result<Stmts, AllocError>
    ensures { IfOk result (λ all. done_of all ≡ On line (kind_of kind) ∷ done_of done) }
{
    done.push(Stmt { line, kind })?;
    Ok(done)
}

#[tactic(auto, using(crate::proofs::Whole::branch_next))]
fn with_branch(
    mut branches: Branches,
    line: u32,
    test: Expr,
    body: Stmts,
) -> Result<Branches, AllocError>
    ensures { IfOk result (λ all. branches_of all ≡ Tested line (expression_of test) (statements_of body) ∷ branches_of branches) }
{
    branches.push(Branch { line, test, body })?;
    Ok(branches)
}

#[tactic(auto, using(crate::proofs::Whole::clause_next))]
fn with_clause(
    mut clauses: Clauses,
    matches: Option<Expr>,
    bind: Option<Text>,
    body: Stmts,
) -> Result<Clauses, AllocError>
    ensures { IfOk result (λ all. clauses_of all ≡ Except (maybe_of matches) bind (statements_of body) ∷ clauses_of clauses) }
{
    clauses.push(Clause {
        matches,
        bind,
        body,
    })?;
    Ok(clauses)
}
