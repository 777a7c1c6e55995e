ghost use Rattle.std.specs.Prelude.{◌≡◌};
ghost use Rattle.py_tree.specs.Stops.{IsMemory};
ghost use Rattle.py_tree.specs.declared.fault.Stop.TheVariants as stop;

use crate::code::Code;
use std::alloc::{AllocError, AllocFailed};

/// Why a module is refused, and where.
#[derive(Clone, Copy, Debug, PartialEq, Eq)]
pub struct Fault {
    /// The physical line, from 1.
    pub line: u32,
    pub code: Code,
}

/// Why a call that reads a module has no value: the module is at fault, or no memory was found.
#[derive(Debug, Drop)]
pub enum Stop {
    Fault(Fault),
    Memory(AllocError),
}

impl From<Fault> for Stop {
    ghost from_gives = { λ fault made. made ≡ stop.Fault fault };

    fn from(fault: Fault) -> Stop {
        Stop::Fault(fault)
    }
}

impl From<AllocError> for Stop {
    ghost from_gives = { λ error made. made ≡ stop.Memory error };

    fn from(error: AllocError) -> Stop {
        Stop::Memory(error)
    }
}

/// Drops what could not be kept.
impl<T: Drop> From<AllocFailed<T>> for Stop {
    ghost from_gives = { λ _ made. IsMemory made };

    fn from(error: AllocFailed<T>) -> Stop {
        Stop::Memory(AllocError::from(error))
    }
}
