ghost use Rattle.std.specs.Prelude.{◌≡◌, ◌+◌, ◌++◌, ◌∷◌, [], IfOk, OnOk};
ghost use Rattle.bytecode.specs.declared.instr.Instr.TheVariants as i;
ghost use Rattle.compile_plain.specs.Cells as cells;
ghost use Rattle.compile_plain.specs.Cells.{cell};

use crate::block::{Block, next};
use crate::scope::Scope;
use crate::targets::Targets;
use bytecode::instr::{Handler, Instr};
use std::alloc::{AllocError, Global};

/// Where code is written: its scope, and what is around it.
#[derive(Clone, Copy)]
pub(crate) struct Site<'a> {
    pub alloc: Global,
    pub scope: &'a Scope<'a>,
    pub targets: Targets,
}

impl<'a> Site<'a> {
    /// Puts an instruction, from which an exception goes where those of the site go.
    pub fn put(&self, instr: Instr, block: &mut Block) -> Result<(), AllocError>
        ensures cells { OnOk result (block.new.cells ≡ block.old.cells ++ cell self.now.targets.raised instr ∷ []) }
        ensures end { OnOk result (block.new.end ≡ block.old.end + 1) }
    {
        block.put(self.targets.raised, instr)
    }

    /// The same site with other targets.
    pub fn with(&self, targets: Targets) -> Site<'a>
        ensures scope { result.scope.now ≡ self.now.scope.now }
        ensures targets { result.targets ≡ targets }
    {
        Site { targets, ..*self }
    }
}

impl Targets {
    /// What leaves the clauses inside the loop for a place.
    pub(crate) fn leaves(self, place: u32) -> Instr
        ensures { result ≡ i.Leave self.in_loop place }
    {
        Instr::Leave {
            clauses: self.in_loop,
            place,
        }
    }

    /// Inside the clauses of a `try`.
    pub(crate) fn in_clauses(self) -> Result<Targets, AllocError>
        ensures { IfOk result (λ targets. targets ≡ cells.in_clauses self) }
    {
        Ok(Targets {
            in_loop: next(self.in_loop)?,
            in_block: next(self.in_block)?,
            raised: Handler {
                clauses: next(self.raised.clauses)?,
                ..self.raised
            },
            ..self
        })
    }

    /// Inside the body of a `try` whose clauses are at the place.
    pub(crate) fn in_try(self, place: u32) -> Targets
        ensures { result ≡ cells.in_try self place }
    {
        Targets {
            raised: Handler {
                place: Some(place),
                clauses: 0,
                loops: 0,
            },
            ..self
        }
    }

    pub(crate) fn in_while(self, broke: u32, continued: u32) -> Targets
        ensures { result ≡ cells.in_while self broke continued }
    {
        Targets {
            broke,
            continued,
            in_loop: 0,
            ..self
        }
    }

    pub(crate) fn in_for(self, broke: u32, continued: u32) -> Result<Targets, AllocError>
        ensures { IfOk result (λ targets. targets ≡ cells.in_for self broke continued) }
    {
        Ok(Targets {
            broke,
            continued,
            in_loop: 0,
            raised: Handler {
                loops: next(self.raised.loops)?,
                ..self.raised
            },
            ..self
        })
    }
}
