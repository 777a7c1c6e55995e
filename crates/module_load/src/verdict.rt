ghost use Rattle.std.specs.Prelude.{◌≡◌};
ghost use Rattle.module_load.specs.Right.{is_refused};

use crate::globals::Globals;
use py_tree::fault::Fault;

/// What is decided of a module.
#[derive(Drop)]
pub enum Verdict {
    Published(Globals),
    Refused(Fault),
    /// It has no marker line, so it is left alone.
    Plain,
}

impl Verdict {
    /// Whether the module is refused. One that is plain isn't.
    pub fn is_refused(&self) -> bool
        ensures { result ≡ is_refused self.now }
    {
        matches!(self, Verdict::Refused(_))
    }
}
