ghost use Rattle.std.specs.Prelude.{◌≡◌, ◌≤◌, [], All, IfOk, Some, count_by, true};
ghost use Rattle.std.specs.Arc.{arc_value};
ghost use Rattle.std.specs.Sync.Mutex.{mutex_guard_value};
ghost use Rattle.registry_core.specs.Slots.{slot_at, is_claimed, is_claimed_by};
ghost use Rattle.registry_core.specs.Named.{module_count, IsVerdictOf};
ghost use Rattle.registry_lock.specs.Answer.{MatchTaken, opened, IsTaken};
ghost use Rattle.registry_lock.specs.Passes.{AreFresh, with_more};

use crate::hold::{claim_one, decide, give_up};
use crate::pass::Pass;
use crate::passes::Passes;
use crate::taken::Taken;
use registry_core::claim::{Claim, ClaimAnswer};
use registry_core::imports::Imports;
use registry_core::loads::Loads;
use registry_core::naming::Naming;
use registry_core::registry::Registry;
use std::alloc::{AllocError, Global};
use std::sync::ledger::Share;
use std::sync::{Arc, Condvar, Mutex, MutexGuard, Wait};

/// The registry that loaders share. Whenever its lock is free there is a `Registry` behind it, whose type says that it is right. A clause of
/// a call that takes the lock can't name what it found there: `hold` has what each call does while it holds the lock.
#[derive(Drop)]
pub struct Shared<L: Loads, N: Naming<L, L::Source>> {
    registry: Mutex<Registry<L, N>>,
    /// Told whenever a claim ends, as only that makes a module ready, the whole decided, or stops the registry.
    ended: Condvar,
}

impl<L: Loads, N: Naming<L, L::Source>> Shared<L, N> {
    /// Puts the registry behind a lock, and makes a pass for each loader. `whole` is the registry's ledger without open claims.
    pub fn open(
        alloc: Global,
        registry: Registry<L, N>,
        whole: Share<N>,
        loaders: u32,
    ) -> Result<(Shared<L, N>, Passes<N>), AllocError>
        requires parts { whole.parts ≡ N.parts }
        requires amount { whole.amount ≡ 0 }
        requires least { 1 ≤ loaders }
        requires most { loaders ≤ N.parts }
        ensures { IfOk result (λ made. AreFresh loaders made.1) }
    {
        let passes = Passes::of(alloc, whole, loaders)?;
        let shared = Shared {
            registry: Mutex::new(registry),
            ended: Condvar::new(),
        };
        Ok((shared, passes))
    }

    /// Claims a module for the pass's loader and hands out the verdicts of its need. Waits while nothing is ready.
    pub fn take<R: Wait>(
        &self,
        rt: &R,
        pass: &mut Pass<N>,
        into: &mut Imports<L::Verdict>,
    ) -> Taken<N>
        requires room { module_count N.Naming.own ≤ into.old.room }
        ensures answer { MatchTaken result (IsTaken L.Loads N.Naming.own into.new.rows pass.old.number) (into.new.rows ≡ []) }
        ensures open { pass.new ≡ with_more pass.old (opened result) }
        ensures room { into.new.room ≡ into.old.room }
    {
        let mut guard = self.registry.lock(rt);
        for _ in rt.forever() {
            match claim_one(&mut *guard, pass, into) {
                ClaimAnswer::Claimed(claim) => return Taken::Claimed(claim),
                ClaimAnswer::AllDecided(finished) => return Taken::AllDecided(finished),
                ClaimAnswer::Stopped(halted) => return Taken::Stopped(halted),
                ClaimAnswer::Memory(error) => return Taken::Memory(error),
                ClaimAnswer::NoneReady => {}
            }
            guard = self.ended.wait(rt, guard);
        }
        unreachable!()
    }

    /// Publishes the verdict of a claimed module, or refuses the module by it. Waits while the module isn't claimed by the claim's loader.
    pub fn give<R: Wait>(
        &self,
        rt: &R,
        pass: &mut Pass<N>,
        loads: &L,
        claim: Claim<N>,
        verdict: Arc<L::Verdict>,
    )
        requires loads { N.loads ≡ Some loads.now }
        requires right { IsVerdictOf L.Loads N.Naming.own claim.module (arc_value verdict) }
        requires open { 1 ≤ pass.old.open_claims }
        ensures closed { pass.old ≡ with_more pass.new 1 }
    {
        let is_refused = loads.refuses(&*verdict);
        let mut guard = self.held(rt, &claim);
        decide(&mut *guard, pass, claim, verdict, is_refused);
        drop(guard);
        self.ended.notify_all();
    }

    /// Gives up a claim. Waits while its module isn't claimed by its loader.
    pub fn withdraw<R: Wait>(&self, rt: &R, pass: &mut Pass<N>, claim: Claim<N>)
        requires open { 1 ≤ pass.old.open_claims }
        ensures closed { pass.old ≡ with_more pass.new 1 }
    {
        let mut guard = self.held(rt, &claim);
        give_up(&mut *guard, pass, claim);
        drop(guard);
        self.ended.notify_all();
    }

    /// Waits until the claim's module is claimed by its loader. Each claim that a pass has open is, so no loader waits here.
    fn held<'a, R: Wait>(&'a self, rt: &R, claim: &Claim<N>) -> MutexGuard<'a, Registry<L, N>>
        ensures { is_claimed_by (slot_at (mutex_guard_value result).slots claim.now.module) claim.now.loader ≡ true }
    {
        let mut guard = self.registry.lock(rt);
        for _ in rt.forever() {
            if guard.holds(claim) {
                return guard;
            }
            guard = self.ended.wait(rt, guard);
        }
        unreachable!()
    }

    /// The registry again, with the whole ledger, out of all passes and no open claim.
    pub fn close(self, passes: Passes<N>) -> (Registry<L, N>, Share<N>)
        requires { All (λ pass. pass.open_claims ≡ 0) passes }
        ensures none_claimed { count_by is_claimed result.0.slots ≡ 0 }
        ensures book { result.0.open_claims ≡ 0 }
        ensures parts { result.1.parts ≡ N.parts }
        ensures amount { result.1.amount ≡ 0 }
    {
        let Shared { registry, ended: _ } = self;
        let mut registry = registry.into_inner();
        let mut whole = passes.into_whole();
        registry.settle(&mut whole);
        (registry, whole)
    }
}
