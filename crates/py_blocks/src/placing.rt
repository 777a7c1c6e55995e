ghost use Rattle.std.specs.Prelude.{◌≡◌, ℕ, IfOk, Some, option_map};
ghost use Rattle.py_expr.specs.Forms as form;
ghost use Rattle.py_expr.specs.Forms.{form_of, head_of, maybe_kind_of};
ghost use Rattle.py_tree.specs.Joined.{expression_of, kind_of, maybe_of, statements_of};
ghost use Rattle.py_tree.specs.Syntax.{On};
ghost use Rattle.py_blocks.specs.Machine as machine;
ghost use Rattle.py_blocks.specs.Views.{block_of, clauses_of, last_of, maybe_owner_of, owner_of, placed_of};

use crate::open_block::{Block, Last, Owner, settled, with_statement};
use py_expr::form::{Form, Head};
use py_tree::expression::Expr;
use py_tree::statement::{Branches, Clause, Stmt, StmtKind, Stmts};
use py_tree::text::Text;
use sqlite_items::Boxed;
use std::alloc::{AllocError, Global};

/// A block behind a row that was placed in it, and the head in that row where its own block is still to come.
#[derive(Drop)]
pub(crate) struct Placed {
    pub block: Block,
    pub waiting: Option<Boxed<Owner>>,
}

impl Block {
    /// The block behind a row of its own indentation, or none where the form can't stand there.
    pub fn place(self, alloc: Global, line: u32, form: Form) -> Result<Option<Placed>, AllocError>
        ensures { IfOk result (λ found. option_map placed_of found ≡ machine.place (block_of self) line (form_of form)) }
    {
        match form {
            Form::Simple(kind) => self.place_simple(alloc, line, kind),
            Form::Header(head, kind) => self.place_head(alloc, line, head.into_inner(), kind),
        }
    }

    fn place_head(
        self,
        alloc: Global,
        line: u32,
        head: Head,
        kind: Option<Boxed<StmtKind>>,
    ) -> Result<Option<Placed>, AllocError>
        ensures { IfOk result (λ found. option_map placed_of found ≡ machine.place (block_of self) line (form.Header (head_of head) (maybe_kind_of kind))) }
    {
        match head {
            Head::Elif(test) => {
                let (block, last) = self.split();
                block.beside(alloc, line, kind, last.elif(line, test))
            }
            Head::Else => {
                let (block, last) = self.split();
                block.beside(alloc, line, kind, last.orelse())
            }
            Head::Except { matches, bind } => {
                let (block, last) = self.split();
                block.beside(alloc, line, kind, last.except(matches, bind))
            }
            start => self.place_start(alloc, line, start, kind),
        }
    }

    /// The block without its last statement, and that.
    fn split(self) -> (Block, Last)
        ensures block { block_of result.0 ≡ machine.fresh (block_of self).indent (block_of self).context (block_of self).done }
        ensures last { last_of result.1 ≡ (block_of self).last }
    {
        let Block {
            indent,
            context,
            done,
            last,
        } = self;
        (Block::fresh(indent, context, done), last)
    }

    fn place_simple(
        self,
        alloc: Global,
        line: u32,
        kind: StmtKind,
    ) -> Result<Option<Placed>, AllocError>
        ensures { IfOk result (λ found. option_map placed_of found ≡ machine.place (block_of self) line (form.Simple (kind_of kind))) }
    {
        let Block {
            indent,
            context,
            done,
            last,
        } = self;
        let Some(done) = settled(alloc, done, last)? else {
            return Ok(None);
        };
        if !context.takes_simple(&kind) {
            return Ok(None);
        }
        let done = with_statement(done, line, kind)?;
        let block = Block::fresh(indent, context.behind(), done);
        Ok(Some(Placed {
            block,
            waiting: None,
        }))
    }

    /// A head that begins a statement.
    fn place_start(
        self,
        alloc: Global,
        line: u32,
        head: Head,
        kind: Option<Boxed<StmtKind>>,
    ) -> Result<Option<Placed>, AllocError>
        ensures { IfOk result (λ found. option_map placed_of found
            ≡ machine.and_then (λ done. machine.begin (block_of self).indent (block_of self).context done line (form.Header (head_of head) (maybe_kind_of kind))) (machine.settled (block_of self).done (block_of self).last)) }
    {
        let Block {
            indent,
            context,
            done,
            last,
        } = self;
        let Some(done) = settled(alloc, done, last)? else {
            return Ok(None);
        };
        if !context.takes_head(&head) {
            return Ok(None);
        }
        let owner = started(alloc, line, head);
        Block::fresh(indent, context.behind(), done).beside(alloc, line, kind, owner)
    }

    fn beside(
        self,
        alloc: Global,
        line: u32,
        kind: Option<Boxed<StmtKind>>,
        owner: Option<Owner>,
    ) -> Result<Option<Placed>, AllocError>
        ensures { IfOk result (λ found. option_map placed_of found ≡ machine.and_then (machine.beside_head (block_of self) line (maybe_kind_of kind)) (maybe_owner_of owner)) }
    {
        match owner {
            Some(owner) => self.beside_head(alloc, line, kind, owner),
            None => Ok(None),
        }
    }

    /// Takes the simple statement on the head's line as the head's block, or keeps the head where there is none.
    fn beside_head(
        self,
        alloc: Global,
        line: u32,
        kind: Option<Boxed<StmtKind>>,
        owner: Owner,
    ) -> Result<Option<Placed>, AllocError>
        ensures { IfOk result (λ found. option_map placed_of found ≡ machine.beside_head (block_of self) line (maybe_kind_of kind) (owner_of owner)) }
    {
        match kind {
            Some(kind) => self.holding(alloc, line, kind.into_inner(), owner),
            None => Ok(Some(self.waiting(alloc, owner)?)),
        }
    }

    /// Takes the simple statement on the head's line as the head's block, or none where it can't stand there.
    fn holding(
        self,
        alloc: Global,
        line: u32,
        kind: StmtKind,
        owner: Owner,
    ) -> Result<Option<Placed>, AllocError>
        ensures { IfOk result (λ found. option_map placed_of found ≡ machine.beside_head (block_of self) line (Some (kind_of kind)) (owner_of owner)) }
    {
        if !owner.inside(self.context).takes_simple(&kind) {
            return Ok(None);
        }
        let body = alone(alloc, line, kind)?;
        Ok(Some(Placed {
            block: self.put(alloc, owner, body)?,
            waiting: None,
        }))
    }

    /// Keeps the head, whose block is still to come.
    fn waiting(self, alloc: Global, owner: Owner) -> Result<Placed, AllocError>
        ensures { IfOk result (λ made. placed_of made ≡ machine.placed (block_of self) (Some (owner_of owner))) }
    {
        let owner = Boxed::new(alloc, owner)?;
        Ok(Placed {
            block: self,
            waiting: Some(owner),
        })
    }
}

/// A block of one statement.
fn alone(alloc: Global, line: u32, kind: StmtKind) -> Result<Stmts, AllocError>
    ensures { IfOk result (λ body. statements_of body ≡ machine.alone (On line (kind_of kind))) }
{
    let mut body = Stmts::new(alloc);
    body.push(Stmt { line, kind })?;
    Ok(body)
}

fn started(alloc: Global, line: u32, head: Head) -> Option<Owner>
    ensures { maybe_owner_of result ≡ machine.started line (head_of head) }
{
    match head {
        Head::If(test) => Some(Owner::Branch {
            line,
            branches: Branches::new(alloc),
            at: line,
            test,
        }),
        Head::While(test) => Some(Owner::While { line, test }),
        Head::For(target, iterable) => Some(Owner::For {
            line,
            target,
            iterable,
        }),
        Head::Try => Some(Owner::Try { line }),
        Head::Def {
            name,
            params,
            result,
        } => Some(Owner::Def {
            line,
            name,
            params,
            result,
        }),
        Head::Class { name, base } => Some(Owner::Class { line, name, base }),
        Head::Elif(_) | Head::Else | Head::Except { .. } => None,
    }
}

impl Last {
    /// An `elif` behind it, where it takes one.
    fn elif(self, at: u32, test: Expr) -> Option<Owner>
        ensures { maybe_owner_of result ≡ machine.continued (last_of self) at (form.Elif (expression_of test)) }
    {
        match self {
            Last::If { line, branches } => Some(Owner::Branch {
                line,
                branches,
                at,
                test,
            }),
            Last::Whole | Last::Try { .. } => None,
        }
    }

    /// An `else` behind it, where it takes one.
    fn orelse(self) -> Option<Owner>
        ensures { (n : ℕ) → maybe_owner_of result ≡ machine.continued (last_of self) n form.Else }
    {
        match self {
            Last::If { line, branches } => Some(Owner::Else { line, branches }),
            Last::Whole | Last::Try { .. } => None,
        }
    }

    /// A clause behind it, where it takes one.
    fn except(self, matches: Option<Expr>, bind: Option<Text>) -> Option<Owner>
        ensures { (n : ℕ) → maybe_owner_of result ≡ machine.continued (last_of self) n (form.Except (maybe_of matches) bind) }
    {
        match self {
            Last::Try {
                line,
                body,
                clauses,
            } => {
                if !takes_clause(clauses.as_slice()) {
                    return None;
                }
                Some(Owner::Except {
                    line,
                    body,
                    clauses,
                    matches,
                    bind,
                })
            }
            Last::Whole | Last::If { .. } => None,
        }
    }
}

/// Whether a clause may stand behind these: behind one that takes all exceptions none may.
fn takes_clause(clauses: &[Clause]) -> bool
    ensures { result ≡ machine.takes_clause (clauses_of clauses.now) }
{
    match clauses {
        [.., last] => last.matches.is_some(),
        [] => true,
    }
}
