ghost use Rattle.std.specs.Prelude.{Option, None};
ghost use Rattle.registry_core.specs.declared.sources.Sources.{Sources};

use std::marker::Brand;
use std::sync::ledger::Ledger;

/// The name of one registry: it stands for one ledger of open claims, one way to load, and one set of sources. A call at `Brand` picks
/// them.
pub trait Naming<L, S>: Ledger {
    ghost loads: { Option L };

    ghost sources: { Option (Sources S) };
}

impl<L, S> Naming<L, S> for Brand {
    ghost loads = { None };

    ghost sources = { None };
}
