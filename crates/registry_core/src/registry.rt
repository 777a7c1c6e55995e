ghost use Rattle.std.specs.Prelude.{◌≡◌, ◌↔◌, ℕ, ◌<◌, ◌≤◌, ◌+◌, [], true, false, Some, None, IsSome, IsOk, IfOk, IfErr, replicate, count_by};
ghost use Rattle.std.specs.List.{list_any, list_all};
ghost use Rattle.std.specs.Arc.{arc_value};
ghost use Rattle.registry_core.specs.Slots.{slot_at, is_claimed, is_claimed_by, is_decided, is_withdrawn};
ghost use Rattle.registry_core.specs.Right.{IsClaimedOnce};
ghost use Rattle.registry_core.specs.View.{moved, decided_by};
ghost use Rattle.registry_core.specs.Named.{module_count, IsVerdictOf, IsNeedOf, IsWorldOf, IsRightView};
ghost use Rattle.registry_core.specs.Answer.{MatchClaim, UnlessClaimed, opened, IsHandedOut, IsBusy};
ghost use Rattle.registry_core.specs.Decision.{decision, decided_slot};

use crate::claim::{Claim, ClaimAnswer, Finished, Halted};
use crate::imports::Imports;
use crate::loads::Loads;
use crate::naming::Naming;
use crate::slot::{Event, EventKind, Slot};
use crate::slots::{every_decided, first_ready, gather, is_claimed_by, slot_at, some_withdrawn};
use crate::sources::Sources;
use crate::world::World;
use std::alloc::{AllocError, Global};
use std::marker::Model;
use std::sync::Arc;
use std::sync::ledger::{Blank, Book, Share};

/// Which modules are claimed and by whom, which are decided and by which verdicts. Its type says that it is right, as long as it lives:
/// `history` and `into_world` tell what that means. Contracts see its slots, its verdicts, its history and the total of its book.
#[derive(Drop)]
pub struct Registry<L: Loads, N: Naming<L, L::Source>> {
    all: Arc<Sources<L::Source>>,
    slots: Vec<Slot>,
    verdicts: Vec<Option<Arc<L::Verdict>>>,
    history: Vec<Event>,
    /// How many direct imports of each module, from the front, were seen to be decided.
    fronts: Vec<usize>,
    book: Book<N>,
}

impl<L: Loads, N: Naming<L, L::Source>> Model for Registry<L, N> {
    ghost use Rattle.registry_core.specs.View.{RegistryView};

    ghost Value = { RegistryView L.Verdict };

    ghost use Rattle.std.specs.Vec.{vec_capacity};
    ghost use Rattle.registry_core.specs.Stored.{shown};
    ghost use Rattle.registry_core.specs.Kept.{IsKept};

    ghost view = { λ r. record { slots = r.slots.items; verdicts = shown r.verdicts.items; history = r.history.items; open_claims = r.book.total } };

    ghost invariant = { λ r. IsKept L.Loads N.Naming r.all.value (record { slots = r.slots.items; verdicts = shown r.verdicts.items; history = r.history.items; open_claims = r.book.total }) r.fronts.items (vec_capacity r.history) };
}

impl<L: Loads, N: Naming<L, L::Source>> Registry<L, N> {
    /// A registry in which every module waits, with all parts of the ledger of open claims. It takes all the memory that the registry
    /// needs from here on.
    pub fn open(
        alloc: Global,
        all: Arc<Sources<L::Source>>,
        blank: Blank,
    ) -> Result<(Registry<L, N>, Share<N>), AllocError>
        requires name { blank.name ≡ N.name }
        requires parts { blank.parts ≡ N.parts }
        requires loads { IsSome N.loads }
        requires sources { N.sources ≡ Some (arc_value all) }
        ensures slots { IfOk result (λ r. r.0.slots ≡ replicate (module_count N.Naming.own) Slot.Waiting) }
        ensures verdicts { IfOk result (λ r. r.0.verdicts ≡ replicate (module_count N.Naming.own) None) }
        ensures history { IfOk result (λ r. r.0.history ≡ []) }
        ensures book { IfOk result (λ r. r.0.open_claims ≡ 0) }
        ensures parts { IfOk result (λ r. r.1.parts ≡ N.parts) }
        ensures amount { IfOk result (λ r. r.1.amount ≡ 0) }
    {
        let count = all.graph.count() as usize;
        let slots = vec![in alloc; Slot::Waiting; count]?;
        let verdicts = no_verdicts(alloc, count)?;
        let history = Vec::with_capacity(alloc, count * 2)?;
        let fronts = vec![in alloc; 0; count]?;
        let (book, share) = blank.open::<N>();
        let registry = Registry {
            all,
            slots,
            verdicts,
            history,
            fronts,
            book,
        };
        Ok((registry, share))
    }

    /// Claims a module for the loader and hands out the verdicts of its need, or says why there is none to claim. At want of memory
    /// nothing is claimed.
    pub fn claim(
        &mut self,
        share: &mut Share<N>,
        loader: u32,
        into: &mut Imports<L::Verdict>,
    ) -> ClaimAnswer<N>
        requires room { module_count N.Naming.own ≤ into.old.room }
        requires part { 0 < share.old.parts }
        ensures answer { MatchClaim result
            (IsHandedOut L.Loads N.Naming.own self.old self.new into.new.rows loader)
            (list_all is_decided self.old.slots ≡ true)
            (list_any is_withdrawn self.old.slots ≡ true)
            (IsBusy N.Naming.own self.old.slots) }
        ensures same { UnlessClaimed result (self.new ≡ self.old) }
        ensures emptied { UnlessClaimed result (into.new.rows ≡ []) }
        ensures amount { share.new.amount ≡ share.old.amount + opened result }
        ensures parts { share.new.parts ≡ share.old.parts }
        ensures room { into.new.room ≡ into.old.room }
    {
        into.clear();
        if some_withdrawn(self.slots.as_slice()) {
            return ClaimAnswer::Stopped(Halted::make());
        }
        if every_decided(self.slots.as_slice()) {
            return ClaimAnswer::AllDecided(Finished::make());
        }
        let Some(module) = first_ready(
            self.slots.as_slice(),
            &self.all.graph,
            self.fronts.as_mut_slice(),
        ) else {
            return ClaimAnswer::NoneReady;
        };
        match gather(self.verdicts.as_slice(), self.all.graph.need(module), into) {
            Err(error) => {
                into.clear();
                ClaimAnswer::Memory(error)
            }
            Ok(()) => {
                self.slots[module as usize] = Slot::Claimed(loader);
                self.history.push_reserved(Event {
                    kind: EventKind::Claim,
                    module,
                    loader,
                });
                self.book.add(share, 1);
                ClaimAnswer::Claimed(Claim::make(module, loader))
            }
        }
    }

    /// Publishes the verdict of a claimed module.
    pub fn publish(&mut self, share: &mut Share<N>, claim: Claim<N>, verdict: Arc<L::Verdict>)
        requires slot { slot_at self.old.slots claim.module ≡ Slot.Claimed claim.loader }
        requires share { 1 ≤ share.old.amount }
        requires right { IsVerdictOf L.Loads N.Naming.own claim.module (arc_value verdict) }
        requires published { L.is_refused (L.verdict_data (arc_value verdict)) ≡ false }
        ensures event { self.new ≡ decided_by self.old EventKind.Publish claim.module claim.loader Slot.Published (arc_value verdict) }
        ensures share { share.new.amount + 1 ≡ share.old.amount }
        ensures parts { share.new.parts ≡ share.old.parts }
    {
        self.decide(share, claim, verdict, false)
    }

    /// Refuses a claimed module by its verdict.
    pub fn refuse(&mut self, share: &mut Share<N>, claim: Claim<N>, verdict: Arc<L::Verdict>)
        requires slot { slot_at self.old.slots claim.module ≡ Slot.Claimed claim.loader }
        requires share { 1 ≤ share.old.amount }
        requires right { IsVerdictOf L.Loads N.Naming.own claim.module (arc_value verdict) }
        requires refused { L.is_refused (L.verdict_data (arc_value verdict)) ≡ true }
        ensures event { self.new ≡ decided_by self.old EventKind.Refuse claim.module claim.loader Slot.Refused (arc_value verdict) }
        ensures share { share.new.amount + 1 ≡ share.old.amount }
        ensures parts { share.new.parts ≡ share.old.parts }
    {
        self.decide(share, claim, verdict, true)
    }

    /// Stores the verdict of a claimed module.
    fn decide(
        &mut self,
        share: &mut Share<N>,
        claim: Claim<N>,
        verdict: Arc<L::Verdict>,
        refused: bool,
    )
        requires slot { slot_at self.old.slots claim.module ≡ Slot.Claimed claim.loader }
        requires share { 1 ≤ share.old.amount }
        requires right { IsVerdictOf L.Loads N.Naming.own claim.module (arc_value verdict) }
        requires refused { L.is_refused (L.verdict_data (arc_value verdict)) ≡ refused }
        ensures event { self.new ≡ decided_by self.old (decision refused) claim.module claim.loader (decided_slot refused) (arc_value verdict) }
        ensures share { share.new.amount + 1 ≡ share.old.amount }
        ensures parts { share.new.parts ≡ share.old.parts }
    {
        let (module, loader) = claim.spend();
        let at = module as usize;
        self.slots[at] = decided_slot(refused);
        self.verdicts[at] = Some(verdict);
        self.history.push_reserved(Event {
            kind: decision(refused),
            module,
            loader,
        });
        self.book.sub(share, 1);
    }

    /// Gives up a claim. No module can be claimed after it.
    pub fn withdraw(&mut self, share: &mut Share<N>, claim: Claim<N>)
        requires slot { slot_at self.old.slots claim.module ≡ Slot.Claimed claim.loader }
        requires share { 1 ≤ share.old.amount }
        ensures event { self.new ≡ moved self.old EventKind.Withdraw claim.module claim.loader Slot.Withdrawn }
        ensures share { share.new.amount + 1 ≡ share.old.amount }
        ensures parts { share.new.parts ≡ share.old.parts }
    {
        let (module, loader) = claim.spend();
        self.slots[module as usize] = Slot::Withdrawn;
        self.history.push_reserved(Event {
            kind: EventKind::Withdraw,
            module,
            loader,
        });
        self.book.sub(share, 1);
    }

    /// With all parts of the ledger and no open claim in them, no module is claimed.
    pub fn settle(&mut self, share: &mut Share<N>)
        requires parts { share.old.parts ≡ N.parts }
        requires amount { share.old.amount ≡ 0 }
        ensures none { count_by is_claimed self.new.slots ≡ 0 }
        ensures same { self.new ≡ self.old }
        ensures parts { share.new.parts ≡ share.old.parts }
        ensures amount { share.new.amount ≡ 0 }
    {
        self.book.audit(share);
    }

    /// Whether the claim's module is claimed by its loader.
    pub fn holds(&self, claim: &Claim<N>) -> bool
        ensures { result ≡ is_claimed_by (slot_at self.now.slots claim.now.module) claim.now.loader }
    {
        let slot = slot_at(self.slots.as_slice(), claim.module as usize);
        is_claimed_by(slot, claim.loader)
    }

    /// What happened, in order.
    pub fn history(&self) -> &[Event]
        ensures events { result.now ≡ self.now.history }
        ensures right { IsRightView L.Loads N.Naming.own self.now }
        ensures once { IsClaimedOnce self.now.history }
    {
        self.history.as_slice()
    }

    /// What is known of one module.
    pub fn slot(&self, module: u32) -> Slot
        requires { «module» < module_count N.Naming.own }
        ensures { result ≡ slot_at self.now.slots «module» }
    {
        self.slots[module as usize]
    }

    /// The verdicts of all modules, where every module is decided. Else the same registry comes back.
    pub fn into_world(self) -> Result<World<L>, Registry<L, N>>
        ensures variant { IsOk result ↔ (list_all is_decided self.slots ≡ true) }
        ensures world { IfOk result (λ world. IsWorldOf L.Loads N.Naming.own world) }
        ensures same { IfErr result (λ registry. registry ≡ self) }
    {
        if !every_decided(self.slots.as_slice()) {
            return Err(self);
        }
        let Registry {
            all,
            slots,
            verdicts,
            history,
            fronts,
            book,
        } = self;
        drop(all);
        drop(slots);
        drop(history);
        drop(fronts);
        drop(book);
        Ok(World { verdicts })
    }
}

/// So many places for verdicts.
fn no_verdicts<V: Drop>(alloc: Global, count: usize) -> Result<Vec<Option<Arc<V>>>, AllocError>
    ensures { IfOk result (λ verdicts. verdicts.items ≡ replicate count None) }
{
    let mut verdicts = Vec::new(alloc);
    for _module in 0..count {
        verdicts.push(None)?;
    }
    Ok(verdicts)
}

fn decided_slot(refused: bool) -> Slot
    ensures { result ≡ decided_slot refused }
{
    if refused {
        Slot::Refused
    } else {
        Slot::Published
    }
}

fn decision(refused: bool) -> EventKind
    ensures { result ≡ decision refused }
{
    if refused {
        EventKind::Refuse
    } else {
        EventKind::Publish
    }
}
