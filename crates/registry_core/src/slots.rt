ghost use Rattle.std.specs.Prelude.{◌≡◌, ℕ, ◌<◌, ◌≤◌, Bool, true, false, [], length, map, take, nat_le, Some, MatchOption, OnOk, slice_get};
ghost use Rattle.std.specs.List.{list_any, list_all};
ghost use Rattle.std.specs.Arc.{arc_value};
ghost use Rattle.std.specs.declared.sync.Arc.{Arc};
ghost use Rattle.std.specs.declared.alloc.Global.{Global};
ghost use Rattle.import_graph.specs.Graph.{has};
ghost use Rattle.import_graph.specs.Closure.{count, direct_of, is_cyclic};
ghost use Rattle.registry_core.specs.declared.imports.Import.{Import};
ghost use Rattle.registry_core.specs.Slots.{is_waiting, is_claimed_by, is_decided, is_withdrawn, slot_at, all_decided, is_ready};
ghost use Rattle.registry_core.specs.Machine.{verdict_at};
ghost use Rattle.registry_core.specs.Kept.{HasFronts};

use crate::imports::Imports;
use crate::slot::Slot;
use import_graph::graph::Graph;
use std::alloc::AllocError;
use std::sync::Arc;

fn is_waiting(slot: Slot) -> bool
    ensures { result ≡ is_waiting slot }
{
    matches!(slot, Slot::Waiting)
}

fn is_decided(slot: Slot) -> bool
    ensures { result ≡ is_decided slot }
{
    matches!(slot, Slot::Published | Slot::Refused)
}

fn is_withdrawn(slot: Slot) -> bool
    ensures { result ≡ is_withdrawn slot }
{
    matches!(slot, Slot::Withdrawn)
}

pub(crate) fn is_claimed_by(slot: Slot, loader: u32) -> bool
    ensures { result ≡ is_claimed_by slot loader }
{
    match slot {
        Slot::Claimed(by) => by == loader,
        _ => false,
    }
}

pub(crate) fn some_withdrawn(slots: &[Slot]) -> bool
    ensures { result ≡ list_any is_withdrawn slots.now }
{
    slots.iter().any(|slot| is_withdrawn(*slot))
}

pub(crate) fn every_decided(slots: &[Slot]) -> bool
    ensures { result ≡ list_all is_decided slots.now }
{
    slots.iter().all(|slot| is_decided(*slot))
}

/// The slot of a module. A number that is no module's reads as Waiting.
pub(crate) fn slot_at(slots: &[Slot], module: usize) -> Slot
    ensures { result ≡ slot_at slots.now «module» }
{
    slots.get(module).copied().unwrap_or(Slot::Waiting)
}

/// How many of the modules, from the front, are decided, where so many are known to be.
fn decided_front(slots: &[Slot], modules: &[u32], known: usize) -> usize
    requires { all_decided slots.now (take known modules.now) ≡ true }
    ensures front { all_decided slots.now (take result modules.now) ≡ true }
    ensures whole { nat_le (length modules.now) result ≡ all_decided slots.now modules.now }
{
    for at in known..modules.len() {
        if !is_decided(slot_at(slots, modules[at] as usize)) {
            return at;
        }
    }
    modules.len()
}

/// Whether a module can be claimed. `front` is how many of its direct imports, from the front, are known to be decided.
fn is_ready(slots: &[Slot], graph: &Graph, module: u32, front: &mut usize) -> bool
    requires within { «module» < count graph.now }
    requires front { all_decided slots.now (take front.old (direct_of graph.now «module»)) ≡ true }
    ensures answer { result ≡ is_ready (direct_of graph.now) (is_cyclic graph.now) slots.now «module» }
    ensures front { all_decided slots.now (take front.new (direct_of graph.now «module»)) ≡ true }
{
    if !is_waiting(slot_at(slots, module as usize)) {
        return false;
    }
    if graph.cyclic(module).is_some() {
        return true;
    }
    let direct = graph.direct(module);
    *front = decided_front(slots, direct, *front);
    direct.len() <= *front
}

/// The first module that can be claimed. Imports that were seen to be decided aren't looked at again.
pub(crate) fn first_ready(slots: &[Slot], graph: &Graph, fronts: &mut [usize]) -> Option<u32>
    requires { HasFronts graph.now slots.now fronts.old }
    ensures answer { MatchOption result
        ((m : ℕ) → m < count graph.now → is_ready (direct_of graph.now) (is_cyclic graph.now) slots.now m ≡ false)
        (λ m. (m < count graph.now) × (is_ready (direct_of graph.now) (is_cyclic graph.now) slots.now m ≡ true)) }
    ensures fronts { HasFronts graph.now slots.now fronts.new }
{
    for module in 0..graph.count() {
        if is_ready(slots, graph, module, &mut fronts[module as usize]) {
            return Some(module);
        }
    }
    None
}

/// Copies the verdicts of a need.
pub(crate) fn gather<V: Send + Sync + Drop>(
    verdicts: &[Option<Arc<V>>],
    need: &[u32],
    into: &mut Imports<V>,
) -> Result<(), AllocError>
    requires held { (n : ℕ) → has n need.now ≡ true → (n < length verdicts.now) × ((a : Arc V Global) × (verdict_at verdicts.now n ≡ Some a)) }
    requires empty { into.old.rows ≡ [] }
    requires room { length need.now ≤ into.old.room }
    ensures modules { OnOk result (map (λ (row : Import V). row.module) into.new.rows ≡ need.now) }
    ensures verdicts { OnOk result ((k : ℕ) (row : Import V) → slice_get into.new.rows k ≡ Some row → (a : Arc V Global) × (verdict_at verdicts.now row.module ≡ Some a) × (arc_value a ≡ arc_value row.verdict)) }
    ensures room { into.new.room ≡ into.old.room }
{
    for module in need {
        let Some(verdict) = &verdicts[*module as usize] else {
            unreachable!()
        };
        let verdict = Arc::try_clone(verdict)?;
        into.append(*module, verdict);
    }
    Ok(())
}
