ghost use Rattle.std.specs.Prelude.{◌≡◌, ◌+◌, ◌++◌, ◌∷◌, [], IfOk, OnOk};
ghost use Rattle.compile_plain.specs.Cells.{cell};

use bytecode::instr::{Cell, Handler, Instr};
use lists::Items;
use std::alloc::{AllocError, Global};

/// The cells of a block as far as they are put, with the place behind them.
#[derive(Drop)]
pub(crate) struct Block {
    pub cells: Items<Cell>,
    pub end: u32,
}

impl Block {
    /// No cells.
    pub fn new(alloc: Global) -> Block
        ensures cells { result.cells ≡ [] }
        ensures end { result.end ≡ 0 }
    {
        Block {
            cells: Items::new(alloc),
            end: 0,
        }
    }

    /// Puts an instruction behind them.
    pub fn put(&mut self, handler: Handler, instr: Instr) -> Result<(), AllocError>
        ensures cells { OnOk result (self.new.cells ≡ self.old.cells ++ cell handler instr ∷ []) }
        ensures end { OnOk result (self.new.end ≡ self.old.end + 1) }
    {
        self.end = next(self.end)?;
        self.cells.push(Cell { instr, handler })
    }
}

/// The place behind a place. A block whose places pass a u32 finds no memory.
pub(crate) fn next(place: u32) -> Result<u32, AllocError>
    ensures { IfOk result (λ behind. behind ≡ place + 1) }
{
    place.checked_add(1).ok_or(AllocError)
}
