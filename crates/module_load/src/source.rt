ghost use Rattle.std.specs.Prelude.{◌≡◌, true};
ghost use Rattle.module_load.specs.Sources.{lawful_state};

use py_tree::fault::Fault;
use py_tree::statement::Module;
use py_tree::text::Text;

/// What the file of a module is by itself, whatever it imports.
#[derive(Drop)]
pub enum SourceState {
    /// It has no marker line.
    Plain,
    /// It is refused for its text.
    Faulty(Fault),
    /// It spells a module that has its marker.
    Tree(Module),
}

/// A module of a folder. Its tree is lawful: each statement stands where it may, and each literal is an `int`.
#[derive(Drop)]
pub struct Source {
    pub name: Text,
    pub state: SourceState,
    pub ghost is_lawful: { lawful_state state ≡ true },
}
