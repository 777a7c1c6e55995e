ghost use Rattle.std.specs.Prelude.{◌≡◌, ◌≤◌, All, IfOk, Some};
ghost use Rattle.std.specs.Arc.{arc_value};
ghost use Rattle.registry_core.specs.Named.{module_count, IsWorldOf};
ghost use Rattle.registry_core.specs.Verdicts.{IsWhole};

use crate::gate::Gate;
use crate::loader::loader;
use registry_core::imports::Imports;
use registry_core::loads::Loads;
use registry_core::naming::Naming;
use registry_core::registry::Registry;
use registry_core::sources::Sources;
use registry_core::world::World;
use registry_lock::pass::Pass;
use registry_lock::shared::Shared;
use std::alloc::{AllocError, Global};
use std::marker::Brand;
use std::sync::ledger::Blank;
use std::sync::{Arc, Wait};
use std::thread;
use std::thread::Threads;

/// The most loaders that there may be: the parts of the ledger of open claims.
pub const MOST_LOADERS: u32 = 64;

/// Decides all modules of the sources by so many loaders beside each other, from 1 to 64.
pub fn load_all<L: Loads + Sync, G: Gate + Sync, R: Threads + Wait + Sync>(
    rt: &R,
    alloc: Global,
    all: Arc<Sources<L::Source>>,
    loads: &L,
    loaders: u32,
    gate: &G,
) -> Result<World<L>, AllocError>
    requires least { 1 ≤ loaders }
    requires most { loaders ≤ MOST_LOADERS }
    ensures { IfOk result (λ world. IsWhole L.verdict_data L.right L.is_right L.is_refused (Some loads.now) (Some (arc_value all)) world) }
{
    let blank = Blank::new(u64::from(MOST_LOADERS));
    load_named::<L, Brand, G, R>(rt, alloc, &all, loads, loaders, gate, blank)
}

/// Decides all modules over a registry of that name.
fn load_named<
    L: Loads + Sync,
    N: Naming<L, L::Source> + Send + Sync,
    G: Gate + Sync,
    R: Threads + Wait + Sync,
>(
    rt: &R,
    alloc: Global,
    all: &Arc<Sources<L::Source>>,
    loads: &L,
    loaders: u32,
    gate: &G,
    blank: Blank,
) -> Result<World<L>, AllocError>
    requires name { blank.name ≡ N.name }
    requires parts { blank.parts ≡ N.parts }
    requires loads { N.loads ≡ Some loads.now }
    requires sources { N.sources ≡ Some (arc_value all.now) }
    requires least { 1 ≤ loaders }
    requires most { loaders ≤ N.parts }
    ensures { IfOk result (λ world. IsWorldOf L.Loads N.Naming.own world) }
{
    let room = Imports::with_room(alloc, all.graph.count())?;
    let (registry, whole) = Registry::<L, N>::open(alloc, Arc::try_clone(all)?, blank)?;
    let (shared, mut passes) = Shared::open(alloc, registry, whole, loaders)?;
    load_by_each(rt, alloc, &shared, passes.rows(), loads, &**all, gate, room);
    let (registry, whole) = shared.close(passes);
    drop(whole);
    registry.into_world().map_err(|_| AllocError)
}

/// Loads by a loader for each pass. What still waits after all of them have ended is decided by one more, on this thread.
fn load_by_each<
    L: Loads + Sync,
    N: Naming<L, L::Source> + Send + Sync,
    G: Gate + Sync,
    R: Threads + Wait + Sync,
>(
    rt: &R,
    alloc: Global,
    shared: &Shared<L, N>,
    passes: &mut [Pass<N>],
    loads: &L,
    all: &Sources<L::Source>,
    gate: &G,
    room: Imports<L::Verdict>,
)
    requires loads { N.loads ≡ Some loads.now }
    requires sources { N.sources ≡ Some all.now }
    requires room { module_count N.Naming.own ≤ room.room }
    requires open { All (λ pass. pass.open_claims ≡ 0) passes.old }
    ensures { All (λ pass. pass.open_claims ≡ 0) passes.new }
{
    load_beside(rt, alloc, shared, passes, loads, all, gate);
    if let Some(pass) = passes.first_mut() {
        drop(loader(rt, alloc, shared, pass, loads, all, gate, room));
    }
}

/// A loader for each pass, in threads of their own. Where a thread can't be started, this one does its work.
fn load_beside<
    L: Loads + Sync,
    N: Naming<L, L::Source> + Send + Sync,
    G: Gate + Sync,
    R: Threads + Wait + Sync,
>(
    rt: &R,
    alloc: Global,
    shared: &Shared<L, N>,
    passes: &mut [Pass<N>],
    loads: &L,
    all: &Sources<L::Source>,
    gate: &G,
)
    requires loads { N.loads ≡ Some loads.now }
    requires sources { N.sources ≡ Some all.now }
    requires open { All (λ pass. pass.open_claims ≡ 0) passes.old }
    ensures { All (λ pass. pass.open_claims ≡ 0) passes.new }
{
    let threads = passes.len();
    if threads == 0 {
        return;
    }
    thread::for_each_mut(
        rt,
        passes,
        threads,
        &|_, pass: &mut Pass<N>|
            requires { (N.loads ≡ Some loads.now) × (N.sources ≡ Some all.now) × (pass.now.open_claims ≡ 0) }
            ensures { pass.exit.now.open_claims ≡ 0 }
        { load_with(rt, alloc, shared, pass, loads, all, gate) },
    );
}

/// A loader with room of its own. Without memory for it, it claims nothing.
fn load_with<L: Loads, N: Naming<L, L::Source>, G: Gate, R: Wait>(
    rt: &R,
    alloc: Global,
    shared: &Shared<L, N>,
    pass: &mut Pass<N>,
    loads: &L,
    all: &Sources<L::Source>,
    gate: &G,
)
    requires loads { N.loads ≡ Some loads.now }
    requires sources { N.sources ≡ Some all.now }
    requires open { pass.old.open_claims ≡ 0 }
    ensures { pass.new.open_claims ≡ 0 }
{
    if let Ok(room) = Imports::with_room(alloc, all.graph.count()) {
        drop(loader(rt, alloc, shared, pass, loads, all, gate, room));
    }
}
