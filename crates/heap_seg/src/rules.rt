ghost use Rattle.std.specs.Prelude.{◌≡◌};
ghost use Rattle.heap_seg.specs.Modes.{Mode};

use py_tree::code::Code;
use py_values::exception::ExcKind;
use py_values::value::Home;

/// What the rules of a run say to an action.
#[derive(Clone, Copy, Debug, PartialEq, Eq)]
pub enum Answer {
    /// It is done.
    Go,
    /// An exception of that class is raised in its place.
    Raise(ExcKind),
    /// The module is refused with that code.
    Refuse(Code),
}

/// The rules of a run. No method takes memory.
pub trait Rules {
    /// Their three answers.
    ghost mode: { Self → Mode };

    /// A write to an object of that home.
    fn on_write(&self, home: Home) -> Answer
        ensures { result ≡ (mode self.now).on_write home };

    /// A call of `print`.
    fn on_print(&self) -> Answer
        ensures { result ≡ (mode self.now).on_print };

    /// A look at a host value.
    fn on_look(&self) -> Answer
        ensures { result ≡ (mode self.now).on_look };
}
