ghost use Rattle.std.specs.Prelude.{◌≡◌, ◌≤◌, ◌<◌, ◌+◌, Some, IsSome};
ghost use Rattle.std.specs.Arc.{arc_value};
ghost use Rattle.registry_core.specs.Slots.{slot_at};
ghost use Rattle.registry_core.specs.Named.{module_count};

use import_graph::graph::{build_graph, is_graph};
use import_graph::rows::{DirectImport, GraphRow, GraphRows};
use lists::{ElementAt, Items};
use registry_core::claim::{Claim, ClaimAnswer};
use registry_core::imports::Imports;
use registry_core::loads::Loads;
use registry_core::naming::Naming;
use registry_core::registry::Registry;
use registry_core::slot::{Event, EventKind, Slot};
use registry_core::sources::Sources;
use std::alloc::{AllocError, Global};
use std::marker::Brand;
use std::process::Abort;
use std::sync::Arc;
use std::sync::ledger::{Blank, Share};
use std::test::Fail;

/// A module is bad where its source says so, and bad modules are refused.
#[derive(Drop)]
struct Flags;

impl Loads for Flags {
    type Source = bool;

    type Verdict = bool;

    type Data = bool;

    ghost use Rattle.std.specs.Prelude.{◌≡◌, false, slice_index_or};

    ghost verdict_data = { λ verdict. verdict };

    ghost right = { λ loads all m list. slice_index_or all.list m false };

    ghost is_right = { λ loads all m list verdict. verdict ≡ slice_index_or all.list m false };

    ghost is_refused = { λ verdict. verdict };

    ghost right_data = { λ loads all m list verdict h. h };

    fn load(
        &self,
        _alloc: Global,
        all: &Sources<bool>,
        module: u32,
        _imports: &Imports<bool>,
    ) -> Result<bool, AllocError> {
        Ok(*all.list.at(module as usize))
    }

    fn refuses(&self, verdict: &bool) -> bool {
        *verdict
    }
}

/// The sources of two modules: the first is bad, and imports the second.
fn sources(rt: &impl Abort, alloc: Global) -> Result<Arc<Sources<bool>>, AllocError> {
    let mut row: GraphRow = Items::new(alloc);
    row.push(DirectImport { line: 1, module: 1 })?;
    let mut rows: GraphRows = Items::new(alloc);
    rows.push(row)?;
    rows.push(Items::new(alloc))?;
    let list = Items::from_slice(alloc, &[true, false])?;
    assert!(rt; rows.len() <= 4294967295);
    assert!(rt; list.len() == rows.len());
    assert!(rt; is_graph(&rows));
    let graph = build_graph(alloc, &rows)?;
    Ok(Arc::new(alloc, Sources { list, graph })?)
}

/// Claims a module for the loader 7.
fn claim_one<N: Naming<Flags, bool>, R: Abort>(
    rt: &R,
    registry: &mut Registry<Flags, N>,
    share: &mut Share<N>,
    into: &mut Imports<bool>,
) -> Claim<N>
    requires part { 0 < share.old.parts }
    requires room { module_count N.Naming.own ≤ into.old.room }
    ensures there { result.module < module_count N.Naming.own }
    ensures slot { slot_at registry.new.slots result.module ≡ Slot.Claimed result.loader }
    ensures amount { share.new.amount ≡ share.old.amount + 1 }
    ensures parts { share.new.parts ≡ share.old.parts }
    ensures room { into.new.room ≡ into.old.room }
{
    match registry.claim(share, 7, into) {
        ClaimAnswer::Claimed(claim) => claim,
        ClaimAnswer::AllDecided(_) => panic!(rt; "all is decided"),
        ClaimAnswer::Stopped(_) => panic!(rt; "stopped"),
        ClaimAnswer::NoneReady => panic!(rt; "none is ready"),
        ClaimAnswer::Memory(_) => panic!(rt; "no memory"),
    }
}

/// Why no module is claimed.
#[derive(Clone, Copy, Debug, PartialEq, Eq)]
enum Unclaimed {
    AllDecided,
    Stopped,
    NoneReady,
}

/// Asks for a module where none is to claim.
fn claim_none<N: Naming<Flags, bool>, R: Abort>(
    rt: &R,
    registry: &mut Registry<Flags, N>,
    share: &mut Share<N>,
    into: &mut Imports<bool>,
) -> Unclaimed
    requires part { 0 < share.old.parts }
    requires room { module_count N.Naming.own ≤ into.old.room }
    ensures registry { registry.new ≡ registry.old }
    ensures amount { share.new.amount ≡ share.old.amount }
    ensures parts { share.new.parts ≡ share.old.parts }
    ensures room { into.new.room ≡ into.old.room }
{
    match registry.claim(share, 8, into) {
        ClaimAnswer::AllDecided(_) => Unclaimed::AllDecided,
        ClaimAnswer::Stopped(_) => Unclaimed::Stopped,
        ClaimAnswer::NoneReady => Unclaimed::NoneReady,
        ClaimAnswer::Memory(_) => panic!(rt; "no memory"),
        ClaimAnswer::Claimed(claim) => panic!(rt; "{} was claimed", claim.module),
    }
}

/// Decides a claimed module, or withdraws the claim for want of memory.
fn decide<N: Naming<Flags, bool>>(
    alloc: Global,
    registry: &mut Registry<Flags, N>,
    share: &mut Share<N>,
    all: &Sources<bool>,
    loads: &Flags,
    claim: Claim<N>,
) -> Result<(), AllocError>
    requires loads { N.loads ≡ Some loads.now }
    requires sources { N.sources ≡ Some all.now }
    requires there { claim.module < module_count N.Naming.own }
    requires slot { slot_at registry.old.slots claim.module ≡ Slot.Claimed claim.loader }
    requires share { 1 ≤ share.old.amount }
    ensures parts { share.new.parts ≡ share.old.parts }
{
    let is_bad = *all.list.at(claim.module as usize);
    let is_refused = loads.refuses(&is_bad);
    let Ok(verdict) = Arc::new(alloc, is_bad) else {
        registry.withdraw(share, claim);
        return Err(AllocError);
    };
    if is_refused {
        registry.refuse(share, claim, verdict);
    } else {
        registry.publish(share, claim, verdict);
    }
    Ok(())
}

fn event(kind: EventKind, module: u32) -> Event {
    Event {
        kind,
        module,
        loader: 7,
    }
}

/// Decides both modules.
fn decided<N: Naming<Flags, bool>, R: Abort>(
    rt: &R,
    alloc: Global,
    all: &Arc<Sources<bool>>,
    loads: &Flags,
    blank: Blank,
) -> Result<Registry<Flags, N>, AllocError>
    requires name { blank.name ≡ N.name }
    requires parts { blank.parts ≡ N.parts }
    requires some { 0 < N.parts }
    requires loads { N.loads ≡ Some loads.now }
    requires sources { N.sources ≡ Some (arc_value all.now) }
    requires modules { module_count N.Naming.own ≡ 2 }
{
    let mut into = Imports::with_room(alloc, 2)?;
    let (mut registry, mut share) = Registry::<Flags, N>::open(alloc, Arc::try_clone(all)?, blank)?;
    let first = claim_one(rt, &mut registry, &mut share, &mut into);
    assert_eq!(rt; into.as_slice().len(), 0);
    decide(alloc, &mut registry, &mut share, &**all, loads, first)?;
    let second = claim_one(rt, &mut registry, &mut share, &mut into);
    assert_eq!(rt; into.get(1).map(|verdict| **verdict), Some(false));
    decide(alloc, &mut registry, &mut share, &**all, loads, second)?;
    let none = claim_none(rt, &mut registry, &mut share, &mut into);
    assert_eq!(rt; none, Unclaimed::AllDecided);
    Ok(registry)
}

/// Compares what happened and the verdicts.
fn assert_decided<N: Naming<Flags, bool>, R: Abort>(rt: &R, registry: Registry<Flags, N>)
    requires modules { module_count N.Naming.own ≡ 2 }
{
    let events = [
        event(EventKind::Claim, 1),
        event(EventKind::Publish, 1),
        event(EventKind::Claim, 0),
        event(EventKind::Refuse, 0),
    ];
    assert_eq!(rt; registry.history(), events.as_slice());
    match registry.into_world() {
        Ok(world) => {
            assert!(rt; *world.verdict(0));
            assert!(rt; !*world.verdict(1));
        }
        Err(_) => panic!(rt; "not all is decided"),
    }
}

/// Decides both modules by a registry of that name, and compares.
fn decide_both<N: Naming<Flags, bool>, R: Abort>(
    rt: &R,
    alloc: Global,
    all: &Arc<Sources<bool>>,
    loads: &Flags,
    blank: Blank,
) -> Result<(), AllocError>
    requires name { blank.name ≡ N.name }
    requires parts { blank.parts ≡ N.parts }
    requires some { 0 < N.parts }
    requires loads { N.loads ≡ Some loads.now }
    requires sources { N.sources ≡ Some (arc_value all.now) }
    requires modules { module_count N.Naming.own ≡ 2 }
{
    let registry = decided::<N, R>(rt, alloc, all, loads, blank)?;
    assert_decided(rt, registry);
    Ok(())
}

#[test]
fn one_loader_decides_each_module_behind_its_need(rt: HostRuntime) -> Result<(), Fail> {
    let alloc = rt.alloc();
    let all = sources(&rt, alloc)?;
    assert!(rt; all.graph.count() == 2);
    decide_both::<Brand, HostRuntime>(&rt, alloc, &all, &Flags, Blank::new(1))?;
    Ok(())
}

/// With a module claimed none is ready, and with its claim withdrawn none is claimed again.
fn stop<N: Naming<Flags, bool>, R: Abort>(
    rt: &R,
    registry: &mut Registry<Flags, N>,
    share: &mut Share<N>,
    into: &mut Imports<bool>,
)
    requires part { 0 < share.old.parts }
    requires parts { share.old.parts ≡ N.parts }
    requires amount { share.old.amount ≡ 0 }
    requires room { module_count N.Naming.own ≤ into.old.room }
{
    let claim = claim_one(rt, registry, share, into);
    assert!(rt; registry.holds(&claim));
    assert_eq!(rt; registry.slot(claim.module), Slot::Claimed(7));
    assert_eq!(rt; claim_none(rt, registry, share, into), Unclaimed::NoneReady);
    registry.withdraw(share, claim);
    registry.settle(share);
    assert_eq!(rt; claim_none(rt, registry, share, into), Unclaimed::Stopped);
}

/// Stops a registry of that name, and compares what comes back.
fn stop_one<N: Naming<Flags, bool>, R: Abort>(
    rt: &R,
    alloc: Global,
    all: &Arc<Sources<bool>>,
    blank: Blank,
) -> Result<(), AllocError>
    requires name { blank.name ≡ N.name }
    requires parts { blank.parts ≡ N.parts }
    requires some { 0 < N.parts }
    requires loads { IsSome N.loads }
    requires sources { N.sources ≡ Some (arc_value all.now) }
    requires modules { module_count N.Naming.own ≡ 2 }
{
    let mut into = Imports::with_room(alloc, 2)?;
    let (mut registry, mut share) = Registry::<Flags, N>::open(alloc, Arc::try_clone(all)?, blank)?;
    stop(rt, &mut registry, &mut share, &mut into);
    match registry.into_world() {
        Ok(_) => panic!(rt; "all is decided"),
        Err(registry) => {
            assert_eq!(rt; registry.slot(0), Slot::Waiting);
            assert_eq!(rt; registry.slot(1), Slot::Withdrawn);
        }
    }
    Ok(())
}

#[test]
fn a_withdrawal_stops_a_registry(rt: HostRuntime) -> Result<(), Fail> {
    let alloc = rt.alloc();
    let all = sources(&rt, alloc)?;
    assert!(rt; all.graph.count() == 2);
    stop_one::<Brand, HostRuntime>(&rt, alloc, &all, Blank::new(1))?;
    Ok(())
}
