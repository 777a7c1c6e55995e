ghost use Rattle.std.specs.Prelude.{◌≡◌, ◌≢◌, ℕ, ◌||◌, true, List, Bool, count_by};
ghost use Rattle.import_graph.specs.Graph.{Rows};
ghost use Rattle.import_graph.specs.Closure.{count};
ghost use Rattle.import_graph.specs.World.{Rules, rules_over};
ghost use Rattle.registry_core.specs.declared.slot.EventKind.{EventKind};
ghost use Rattle.registry_core.specs.declared.slot.Event.{Event};
ghost use Rattle.registry_core.specs.Slots.{slot_at, is_claimed, is_decided, is_withdrawn};
ghost use Rattle.registry_core.specs.Machine.{State, start, verdict_at, after, Leads};
ghost use Rattle.registry_core.specs.Right.{IsRight};

/// Every run of the machine over a graph leads to a right state, whatever is right: exactly the decided modules have a verdict, the
/// world's; what doesn't wait was ready; and each module was claimed at most once.
pub fn runs_are_right<D>()
    ensures { (rows : Rows) (right : ℕ → List (ℕ × D) → D) (is_refused : D → Bool) (history : List Event) (s : State D) →
        let rules = rules_over rows right is_refused in
        Leads rules (start (count rows)) history s → IsRight rules (count rows) s history (count_by is_claimed s.slots) }
{}

/// An event of a module leaves the slots and verdicts of all others as they were.
pub fn others_stay<D>()
    ensures slots { (rules : Rules D) (s : State D) (kind : EventKind) (m l k : ℕ) → k ≢ m → slot_at (after rules s kind m l).slots k ≡ slot_at s.slots k }
    ensures verdicts { (rules : Rules D) (s : State D) (kind : EventKind) (m l k : ℕ) → k ≢ m → verdict_at (after rules s kind m l).verdicts k ≡ verdict_at s.verdicts k }
{}

/// What is decided or withdrawn stays so, with its verdict, whatever comes after it: a registry that is finished stays finished, and one
/// that has stopped stays stopped.
pub fn ended_stay<D>()
    ensures slots { (rules : Rules D) (s t : State D) (events : List Event) (m : ℕ) → Leads rules s events t
        → is_decided (slot_at s.slots m) || is_withdrawn (slot_at s.slots m) ≡ true
        → slot_at t.slots m ≡ slot_at s.slots m }
    ensures verdicts { (rules : Rules D) (s t : State D) (events : List Event) (m : ℕ) → Leads rules s events t
        → is_decided (slot_at s.slots m) || is_withdrawn (slot_at s.slots m) ≡ true
        → verdict_at t.verdicts m ≡ verdict_at s.verdicts m }
{}
