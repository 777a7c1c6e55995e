ghost use Rattle.std.specs.Prelude.{◌≡◌, ◌<◌, ◌≤◌, All, Some};
ghost use Rattle.std.specs.Arc.{arc_value};
ghost use Rattle.registry_core.specs.Named.{module_count};
ghost use Rattle.registry_lock.specs.Passes.{with_more};

use crate::flags::{Flags, two_sources};
use lists::ElementAt;
use registry_core::claim::Claim;
use registry_core::imports::Imports;
use registry_core::naming::Naming;
use registry_core::registry::Registry;
use registry_core::slot::Slot;
use registry_core::sources::Sources;
use registry_lock::pass::Pass;
use registry_lock::shared::Shared;
use registry_lock::taken::Taken;
use std::alloc::{AllocError, Global};
use std::marker::Brand;
use std::process::Abort;
use std::sync::ledger::Blank;
use std::sync::{Arc, Wait};
use std::test::Fail;

/// Takes a module.
fn take_one<N: Naming<Flags, bool>, R: Abort + Wait>(
    rt: &R,
    shared: &Shared<Flags, N>,
    pass: &mut Pass<N>,
    into: &mut Imports<bool>,
) -> Claim<N>
    requires room { module_count N.Naming.own ≤ into.old.room }
    ensures open { pass.new ≡ with_more pass.old 1 }
    ensures there { result.module < module_count N.Naming.own }
    ensures room { into.new.room ≡ into.old.room }
{
    match shared.take(rt, pass, into) {
        Taken::Claimed(claim) => claim,
        Taken::AllDecided(_) => panic!(rt; "all is decided"),
        Taken::Stopped(_) => panic!(rt; "stopped"),
        Taken::Memory(_) => panic!(rt; "no memory"),
    }
}

/// Gives the verdict of a claimed module, or withdraws the claim for want of memory.
fn give_one<N: Naming<Flags, bool>, R: Wait>(
    rt: &R,
    alloc: Global,
    shared: &Shared<Flags, N>,
    pass: &mut Pass<N>,
    loads: &Flags,
    all: &Sources<bool>,
    claim: Claim<N>,
) -> Result<(), AllocError>
    requires loads { N.loads ≡ Some loads.now }
    requires sources { N.sources ≡ Some all.now }
    requires there { claim.module < module_count N.Naming.own }
    requires open { 1 ≤ pass.old.open_claims }
    ensures closed { pass.old ≡ with_more pass.new 1 }
{
    let is_bad = *all.list.at(claim.module as usize);
    let Ok(verdict) = Arc::new(alloc, is_bad) else {
        shared.withdraw(rt, pass, claim);
        return Err(AllocError);
    };
    shared.give(rt, pass, loads, claim, verdict);
    Ok(())
}

/// Whether a claim was withdrawn.
fn has_stopped<N: Naming<Flags, bool>, R: Abort + Wait>(
    rt: &R,
    shared: &Shared<Flags, N>,
    pass: &mut Pass<N>,
    into: &mut Imports<bool>,
) -> bool
    requires room { module_count N.Naming.own ≤ into.old.room }
    ensures { pass.new ≡ pass.old }
{
    match shared.take(rt, pass, into) {
        Taken::Stopped(_) => true,
        Taken::AllDecided(_) | Taken::Memory(_) => false,
        Taken::Claimed(claim) => panic!(rt; "{} was claimed", claim.module),
    }
}

/// Decides the module that is needed, takes the one that needs it, and gives it up.
fn use_pass<N: Naming<Flags, bool>, R: Abort + Wait>(
    rt: &R,
    alloc: Global,
    shared: &Shared<Flags, N>,
    pass: &mut Pass<N>,
    loads: &Flags,
    all: &Sources<bool>,
    into: &mut Imports<bool>,
) -> Result<(), AllocError>
    requires loads { N.loads ≡ Some loads.now }
    requires sources { N.sources ≡ Some all.now }
    requires room { module_count N.Naming.own ≤ into.old.room }
    ensures { pass.new ≡ pass.old }
{
    assert_eq!(rt; pass.number(), 0);
    let needed = take_one(rt, shared, pass, into);
    assert_eq!(rt; (needed.module, needed.loader), (1, 0));
    give_one(rt, alloc, shared, pass, loads, all, needed)?;
    let needing = take_one(rt, shared, pass, into);
    assert_eq!(rt; needing.module, 0);
    assert_eq!(rt; into.get(1).map(|verdict| **verdict), Some(false));
    shared.withdraw(rt, pass, needing);
    assert!(rt; has_stopped(rt, shared, pass, into));
    Ok(())
}

/// The same by the one pass of these.
fn use_passes<N: Naming<Flags, bool>, R: Abort + Wait>(
    rt: &R,
    alloc: Global,
    shared: &Shared<Flags, N>,
    passes: &mut [Pass<N>],
    loads: &Flags,
    all: &Sources<bool>,
    into: &mut Imports<bool>,
) -> Result<(), AllocError>
    requires loads { N.loads ≡ Some loads.now }
    requires sources { N.sources ≡ Some all.now }
    requires room { module_count N.Naming.own ≤ into.old.room }
    requires open { All (λ pass. pass.open_claims ≡ 0) passes.old }
    ensures { All (λ pass. pass.open_claims ≡ 0) passes.new }
{
    assert_eq!(rt; passes.len(), 1);
    match passes.first_mut() {
        Some(pass) => use_pass(rt, alloc, shared, pass, loads, all, into),
        None => Ok(()),
    }
}

/// Shares a registry of that name, uses its pass, and compares what comes back.
fn share_and_close<N: Naming<Flags, bool>, R: Abort + Wait>(
    rt: &R,
    alloc: Global,
    all: &Arc<Sources<bool>>,
    loads: &Flags,
    blank: Blank,
) -> Result<(), AllocError>
    requires name { blank.name ≡ N.name }
    requires parts { blank.parts ≡ N.parts }
    requires some { 1 ≤ N.parts }
    requires loads { N.loads ≡ Some loads.now }
    requires sources { N.sources ≡ Some (arc_value all.now) }
    requires modules { module_count N.Naming.own ≡ 2 }
{
    let mut into = Imports::with_room(alloc, 2)?;
    let (registry, whole) = Registry::<Flags, N>::open(alloc, Arc::try_clone(all)?, blank)?;
    let (shared, mut passes) = Shared::open(alloc, registry, whole, 1)?;
    use_passes(rt, alloc, &shared, passes.rows(), loads, &**all, &mut into)?;
    let (registry, whole) = shared.close(passes);
    drop(whole);
    assert_eq!(rt; registry.slot(0), Slot::Withdrawn);
    assert_eq!(rt; registry.slot(1), Slot::Published);
    assert_eq!(rt; registry.history().len(), 4);
    Ok(())
}

#[test]
fn a_shared_registry_comes_back_with_what_happened(rt: HostRuntime) -> Result<(), Fail> {
    let alloc = rt.alloc();
    let loads = Flags {
        without_memory: None,
    };
    let all = two_sources(&rt, alloc, true)?;
    share_and_close::<Brand, HostRuntime>(&rt, alloc, &all, &loads, Blank::new(1))?;
    Ok(())
}
