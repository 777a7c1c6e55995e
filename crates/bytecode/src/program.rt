ghost use Rattle.std.specs.Prelude.{◌≡◌, ◌∷◌, [], true, IfOk};
ghost use Rattle.py_tree.specs.Joined.{module_of};
ghost use Rattle.py_tree.specs.Lawful.{lawful};
ghost use Rattle.bytecode.specs.Forward.{forwards};
ghost use Rattle.bytecode.specs.Empty.{empty_cells};

use crate::instr::{Cell, Handler, Instr};
use lists::Items;
use py_tree::statement::{Module, Stmts};
use py_tree::text::Text;
use std::alloc::{AllocError, Global};

/// The code of a body or of a function. Its jumps and handlers lead forward but for those that take a loop's turn, which costs fuel.
#[derive(Drop)]
pub struct CodeBlock {
    pub cells: Items<Cell>,
    pub ghost is_forward: { forwards 0 cells ≡ true },
}

/// Blocks of code by their numbers.
pub type CodeBlocks = Items<CodeBlock>;

/// The code of a module, with what it was compiled from.
#[derive(Drop)]
pub struct Program {
    /// The name of the module.
    pub name: Text,
    pub tree: Module,
    pub body: CodeBlock,
    /// The module's functions by their numbers.
    pub functions: CodeBlocks,
    pub ghost is_lawful: { lawful (module_of tree) ≡ true },
}

impl Program {
    /// The program of a module without a name and without statements.
    pub fn empty(alloc: Global) -> Result<Program, AllocError>
        ensures name { IfOk result (λ program. program.name ≡ []) }
        ensures tree { IfOk result (λ program. program.tree.body ≡ []) }
        ensures body { IfOk result (λ program. program.body.cells ≡ empty_cells) }
        ensures functions { IfOk result (λ program. program.functions ≡ []) }
    {
        let mut cells = Items::new(alloc);
        cells.push(Cell {
            instr: Instr::Nil,
            handler: NOWHERE,
        })?;
        cells.push(Cell {
            instr: Instr::Return { clauses: 0 },
            handler: NOWHERE,
        })?;
        Ok(Program {
            name: Text::from_vec(Vec::new(alloc)),
            tree: Module {
                body: Stmts::new(alloc),
            },
            body: CodeBlock { cells },
            functions: CodeBlocks::new(alloc),
        })
    }
}

/// Out of the block, in which nothing is under way.
const NOWHERE: Handler = Handler {
    place: None,
    clauses: 0,
    loops: 0,
};
