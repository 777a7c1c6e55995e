ghost use Rattle.std.specs.Prelude.{◌≡◌, ◌≤◌, [], true};
ghost use Rattle.std.specs.List.{list_any, list_all};
ghost use Rattle.std.specs.Arc.{arc_value};
ghost use Rattle.registry_core.specs.Slots.{slot_at, is_decided, is_withdrawn};
ghost use Rattle.registry_core.specs.View.{moved, decided_by};
ghost use Rattle.registry_core.specs.Named.{module_count, IsVerdictOf};
ghost use Rattle.registry_core.specs.Answer.{MatchClaim, UnlessClaimed, opened, IsHandedOut, IsBusy};
ghost use Rattle.registry_core.specs.Decision.{decision, decided_slot};
ghost use Rattle.registry_lock.specs.Holds.{AtMostOneEvent};
ghost use Rattle.registry_lock.specs.Passes.{with_more};

use crate::pass::Pass;
use registry_core::claim::{Claim, ClaimAnswer};
use registry_core::imports::Imports;
use registry_core::loads::Loads;
use registry_core::naming::Naming;
use registry_core::registry::Registry;
use registry_core::slot::{EventKind, Slot};
use std::sync::Arc;

/// What `take` does in one hold of the lock: it claims a module for the pass's loader, or says why there is none to claim.
pub fn claim_one<L: Loads, N: Naming<L, L::Source>>(
    registry: &mut Registry<L, N>,
    pass: &mut Pass<N>,
    into: &mut Imports<L::Verdict>,
) -> ClaimAnswer<N>
    requires room { module_count N.Naming.own ≤ into.old.room }
    ensures answer { MatchClaim result
        (IsHandedOut L.Loads N.Naming.own registry.old registry.new into.new.rows pass.old.number)
        (list_all is_decided registry.old.slots ≡ true)
        (list_any is_withdrawn registry.old.slots ≡ true)
        (IsBusy N.Naming.own registry.old.slots) }
    ensures same { UnlessClaimed result (registry.new ≡ registry.old) }
    ensures events { AtMostOneEvent registry.old.history registry.new.history }
    ensures emptied { UnlessClaimed result (into.new.rows ≡ []) }
    ensures open { pass.new ≡ with_more pass.old (opened result) }
    ensures room { into.new.room ≡ into.old.room }
{
    registry.claim(&mut pass.share, pass.number, into)
}

/// What `give` does in one hold of the lock: it publishes a claimed module, or refuses it where the verdict is that of a refused one.
pub fn decide<L: Loads, N: Naming<L, L::Source>>(
    registry: &mut Registry<L, N>,
    pass: &mut Pass<N>,
    claim: Claim<N>,
    verdict: Arc<L::Verdict>,
    is_refused: bool,
)
    requires slot { slot_at registry.old.slots claim.module ≡ Slot.Claimed claim.loader }
    requires open { 1 ≤ pass.old.open_claims }
    requires right { IsVerdictOf L.Loads N.Naming.own claim.module (arc_value verdict) }
    requires refused { L.is_refused (L.verdict_data (arc_value verdict)) ≡ is_refused }
    ensures event { registry.new ≡ decided_by registry.old (decision is_refused) claim.module claim.loader (decided_slot is_refused) (arc_value verdict) }
    ensures events { AtMostOneEvent registry.old.history registry.new.history }
    ensures closed { pass.old ≡ with_more pass.new 1 }
{
    if is_refused {
        registry.refuse(&mut pass.share, claim, verdict);
    } else {
        registry.publish(&mut pass.share, claim, verdict);
    }
}

/// What `withdraw` does in one hold of the lock: it gives up a claim.
pub fn give_up<L: Loads, N: Naming<L, L::Source>>(
    registry: &mut Registry<L, N>,
    pass: &mut Pass<N>,
    claim: Claim<N>,
)
    requires slot { slot_at registry.old.slots claim.module ≡ Slot.Claimed claim.loader }
    requires open { 1 ≤ pass.old.open_claims }
    ensures event { registry.new ≡ moved registry.old EventKind.Withdraw claim.module claim.loader Slot.Withdrawn }
    ensures events { AtMostOneEvent registry.old.history registry.new.history }
    ensures closed { pass.old ≡ with_more pass.new 1 }
{
    registry.withdraw(&mut pass.share, claim);
}
