ghost use Rattle.std.specs.Prelude.{◌≡◌, true};
ghost use Rattle.py_tree.specs.Joined.{module_of};
ghost use Rattle.py_tree.specs.Lawful.{lawful};

use crate::class_list::Classes;
use crate::static_use::StaticUses;
use lists::Items;
use py_tree::expression::Texts;
use py_tree::statement::Module;
use py_tree::text::Text;

/// By which rules a module is checked.
#[derive(Clone, Copy, Debug, PartialEq, Eq)]
pub enum ModuleKind {
    Strict,
    /// Its top part has `import __static__`.
    Static,
}

/// The locals of a function.
#[derive(Drop)]
pub struct FunctionLocals {
    /// The physical line, from 1, of the function's statement.
    pub line: u32,
    pub locals: Texts,
}

/// The functions of a module in the order of the text: its defs, and where a class stands the class's methods.
pub type FunctionsLocals = Items<FunctionLocals>;

/// A module with what its names are. Its statements stand where they may.
#[derive(Drop)]
pub struct Resolved {
    pub tree: Module,
    pub name: Text,
    /// The number of the module, from 0.
    pub number: u32,
    pub kind: ModuleKind,
    pub globals: Texts,
    pub classes: Classes,
    pub functions: FunctionsLocals,
    pub statics: StaticUses,
    pub ghost is_lawful: { lawful (module_of tree) ≡ true },
}
