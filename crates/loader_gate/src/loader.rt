ghost use Rattle.std.specs.Prelude.{◌≡◌, ◌≤◌, Some};
ghost use Rattle.registry_core.specs.Named.{module_count};

use crate::gate::Gate;
use registry_core::claim::{Finished, Halted};
use registry_core::imports::Imports;
use registry_core::loads::Loads;
use registry_core::naming::Naming;
use registry_core::sources::Sources;
use registry_lock::pass::Pass;
use registry_lock::shared::Shared;
use registry_lock::taken::Taken;
use std::alloc::Global;
use std::sync::{Arc, Wait};

/// Why a loader ended.
#[derive(Drop)]
pub enum LoaderEnd<N> {
    /// Every module is decided.
    AllDecided(Finished<N>),
    /// A claim was withdrawn.
    Stopped(Halted<N>),
    /// It found no memory. Where it had a claim it has withdrawn it.
    Withdrew,
}

/// Claims modules and decides them until none is left. `room` is for the verdicts that a module needs. Waits while other loaders decide what
/// the rest needs.
pub fn loader<L: Loads, N: Naming<L, L::Source>, G: Gate, R: Wait>(
    rt: &R,
    alloc: Global,
    shared: &Shared<L, N>,
    pass: &mut Pass<N>,
    loads: &L,
    all: &Sources<L::Source>,
    gate: &G,
    mut room: Imports<L::Verdict>,
) -> LoaderEnd<N>
    requires loads { N.loads ≡ Some loads.now }
    requires sources { N.sources ≡ Some all.now }
    requires room { module_count N.Naming.own ≤ room.room }
    requires open { pass.old.open_claims ≡ 0 }
    ensures { pass.new ≡ pass.old }
{
    for _ in rt.forever() {
        let claim = match shared.take(rt, pass, &mut room) {
            Taken::Claimed(claim) => claim,
            Taken::AllDecided(finished) => return LoaderEnd::AllDecided(finished),
            Taken::Stopped(halted) => return LoaderEnd::Stopped(halted),
            Taken::Memory(_) => return LoaderEnd::Withdrew,
        };
        gate.pass(claim.loader, claim.module);
        let Ok(verdict) = loads.load(alloc, all, claim.module, &room) else {
            shared.withdraw(rt, pass, claim);
            return LoaderEnd::Withdrew;
        };
        let Ok(verdict) = Arc::new(alloc, verdict) else {
            shared.withdraw(rt, pass, claim);
            return LoaderEnd::Withdrew;
        };
        shared.give(rt, pass, loads, claim, verdict);
    }
    unreachable!()
}
