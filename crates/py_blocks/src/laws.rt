ghost use Rattle.std.specs.Prelude.{◌≡◌};
ghost use Rattle.py_tree.specs.Syntax.{Statements};
ghost use Rattle.py_blocks.specs.Blocks.{ModuleAt, Rows};
ghost use Rattle.py_blocks.specs.EveryRows.{EveryRows};

/// The law of blocks: rows spell at most one module.
pub fn one_module()
    ensures { (rows : Rows) (a b : Statements) → ModuleAt rows a → ModuleAt rows b → a ≡ b }
{}

/// The other half of it: rows have a module or a fault.
pub fn every_rows()
    ensures { EveryRows }
{}
