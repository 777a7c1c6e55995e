ghost use Rattle.std.specs.Prelude.{◌≡◌, ◌<◌, ◌≤◌, ◌+◌, Some, false, true, IfOk, MatchOption};
ghost use Rattle.std.specs.Arc.{arc_value};
ghost use Rattle.std.specs.List.{list_all, list_any};
ghost use Rattle.registry_core.specs.Answer.{IsHandedOut};
ghost use Rattle.registry_core.specs.Named.{module_count, IsNeedOf, IsWorldOf};
ghost use Rattle.registry_core.specs.Slots.{slot_at, is_claimed, is_decided, is_withdrawn};
ghost use Rattle.registry_core.specs.Verdicts.{IsWhole};
ghost use Rattle.strict_top.specs.Deciding.{IsDecidedAt};

use registry_core::claim::{Claim, ClaimAnswer};
use registry_core::imports::Imports;
use registry_core::loads::Loads;
use registry_core::naming::Naming;
use registry_core::registry::Registry;
use registry_core::slot::Slot;
use registry_core::sources::Sources;
use registry_core::world::World;
use std::alloc::{AllocError, Global};
use std::marker::Brand;
use std::sync::Arc;
use std::sync::ledger::{Blank, Share};

/// The number of the one loader.
const LOADER: u32 = 0;

/// Decides all modules of the sources on this thread, each after those that it needs.
pub(crate) fn decide_alone<L: Loads>(
    alloc: Global,
    all: Sources<L::Source>,
    loads: &L,
) -> Result<World<L>, AllocError>
    ensures { IfOk result (λ world. IsWhole L.verdict_data L.right L.is_right L.is_refused (Some loads.now) (Some all) world) }
{
    let all = Arc::new(alloc, all)?;
    decide_named::<L, Brand>(alloc, &all, loads, Blank::new(1))
}

/// Decides all modules by a registry of that name.
fn decide_named<L: Loads, N: Naming<L, L::Source>>(
    alloc: Global,
    all: &Arc<Sources<L::Source>>,
    loads: &L,
    blank: Blank,
) -> Result<World<L>, AllocError>
    requires name { blank.name ≡ N.name }
    requires parts { blank.parts ≡ N.parts }
    requires some { 0 < N.parts }
    requires loads { N.loads ≡ Some loads.now }
    requires sources { N.sources ≡ Some (arc_value all.now) }
    ensures { IfOk result (λ world. IsWorldOf L.Loads N.Naming.own world) }
{
    let registry = decided_registry::<L, N>(alloc, all, loads, blank)?;
    match registry.into_world() {
        Ok(world) => Ok(world),
        Err(_) => unreachable!(),
    }
}

/// Opens a registry of that name, and decides all modules by it.
fn decided_registry<L: Loads, N: Naming<L, L::Source>>(
    alloc: Global,
    all: &Arc<Sources<L::Source>>,
    loads: &L,
    blank: Blank,
) -> Result<Registry<L, N>, AllocError>
    requires name { blank.name ≡ N.name }
    requires parts { blank.parts ≡ N.parts }
    requires some { 0 < N.parts }
    requires loads { N.loads ≡ Some loads.now }
    requires sources { N.sources ≡ Some (arc_value all.now) }
    ensures { IfOk result (λ registry. list_all is_decided registry.slots ≡ true) }
{
    let mut room = Imports::with_room(alloc, all.graph.count())?;
    let (mut registry, mut share) = Registry::<L, N>::open(alloc, Arc::try_clone(all)?, blank)?;
    decide_each(alloc, &mut registry, &mut share, &**all, loads, &mut room)?;
    Ok(registry)
}

/// Decides every module of a registry in which none is claimed.
fn decide_each<L: Loads, N: Naming<L, L::Source>>(
    alloc: Global,
    registry: &mut Registry<L, N>,
    share: &mut Share<N>,
    all: &Sources<L::Source>,
    loads: &L,
    room: &mut Imports<L::Verdict>,
) -> Result<(), AllocError>
    requires loads { N.loads ≡ Some loads.now }
    requires sources { N.sources ≡ Some all.now }
    requires part { 0 < share.old.parts }
    requires room { module_count N.Naming.own ≤ room.old.room }
    requires none_claimed { list_any is_claimed registry.old.slots ≡ false }
    requires none_withdrawn { list_any is_withdrawn registry.old.slots ≡ false }
    ensures decided { IfOk result (λ _. list_all is_decided registry.new.slots ≡ true) }
{
    while let Some(claim) = next(registry, share, room)? {
        decide(alloc, registry, share, all, loads, claim, room)?;
    }
    Ok(())
}

/// Claims the next module, where one is left.
fn next<L: Loads, N: Naming<L, L::Source>>(
    registry: &mut Registry<L, N>,
    share: &mut Share<N>,
    room: &mut Imports<L::Verdict>,
) -> Result<Option<Claim<N>>, AllocError>
    requires part { 0 < share.old.parts }
    requires room { module_count N.Naming.own ≤ room.old.room }
    requires none_claimed { list_any is_claimed registry.old.slots ≡ false }
    requires none_withdrawn { list_any is_withdrawn registry.old.slots ≡ false }
    ensures answer { IfOk result (λ next. MatchOption next (list_all is_decided registry.new.slots ≡ true)
        (λ claim. IsHandedOut L.Loads N.Naming.own registry.old registry.new room.new.rows 0 claim.module claim.loader
        × (share.new.amount ≡ share.old.amount + 1))) }
    ensures parts { share.new.parts ≡ share.old.parts }
    ensures room { room.new.room ≡ room.old.room }
{
    match registry.claim(share, LOADER, room) {
        ClaimAnswer::Claimed(claim) => Ok(Some(claim)),
        ClaimAnswer::AllDecided(_) => Ok(None),
        ClaimAnswer::Memory(error) => Err(error),
        // No claim is open, and none was withdrawn.
        ClaimAnswer::Stopped(_) => unreachable!(),
        ClaimAnswer::NoneReady => unreachable!(),
    }
}

/// Decides a claimed module, or withdraws the claim for want of memory.
fn decide<L: Loads, N: Naming<L, L::Source>>(
    alloc: Global,
    registry: &mut Registry<L, N>,
    share: &mut Share<N>,
    all: &Sources<L::Source>,
    loads: &L,
    claim: Claim<N>,
    imports: &Imports<L::Verdict>,
) -> Result<(), AllocError>
    requires loads { N.loads ≡ Some loads.now }
    requires sources { N.sources ≡ Some all.now }
    requires there { claim.module < module_count N.Naming.own }
    requires slot { slot_at registry.old.slots claim.module ≡ Slot.Claimed claim.loader }
    requires share { 1 ≤ share.old.amount }
    requires imports { IsNeedOf L.Loads N.Naming.own claim.module imports.now.rows }
    ensures decided { IfOk result (λ _. IsDecidedAt registry.old.slots registry.new.slots claim.module) }
    ensures parts { share.new.parts ≡ share.old.parts }
{
    let Ok(verdict) = loads.load(alloc, all, claim.module, imports) else {
        registry.withdraw(share, claim);
        return Err(AllocError);
    };
    let is_refused = loads.refuses(&verdict);
    let Ok(verdict) = Arc::new(alloc, verdict) else {
        registry.withdraw(share, claim);
        return Err(AllocError);
    };
    if is_refused {
        registry.refuse(share, claim, verdict);
    } else {
        registry.publish(share, claim, verdict);
    }
    Ok(())
}
