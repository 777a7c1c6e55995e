ghost use Rattle.std.specs.Prelude.{◌≡◌, ◌<◌, ◌⊎◌, ◌||◌, [], codes, ◌∷◌, IfOk, OnOk, nat_lt};
ghost use Rattle.std.specs.List.{list_any};
ghost use Rattle.symbols.specs.Lineages.{Climbs, IsAt, IsLineage, above, clash_at, last_or, methods_at, places_of, slots_at};
ghost use Rattle.symbols.specs.Lineages as spec;
ghost use Rattle.symbols.specs.Tallies.{count};
ghost use Rattle.symbols.specs.declared.class.BasePlace.TheVariants.{None as NoPlace, Earlier};

use crate::class::BasePlace;
use crate::class_list::FoundClasses;
use crate::tally::Tally;
use lists::ElementAt;
use py_tree::text::Text;
use std::alloc::{AllocError, Global};

/// A class of a lineage.
#[derive(Clone, Copy)]
pub(crate) struct Step {
    pub place: BasePlace,
    /// A name is both a slot and a method along it and its bases.
    pub clashes: bool,
}

/// A class with those above it, from the one that has no base on, and the names of their members.
#[derive(Drop)]
pub(crate) struct Lineage<'a> {
    pub classes: &'a FoundClasses,
    /// The slots of an exception class.
    pub args: &'a [Text],
    pub steps: Vec<Step>,
    pub slots: Tally<'a>,
    pub methods: Tally<'a>,
}

impl<'a> Lineage<'a> {
    /// No class.
    pub fn new(alloc: Global, classes: &'a FoundClasses, args: &'a [Text]) -> Lineage<'a>
        ensures classes { result.classes ≡ classes.entry }
        ensures args { result.args ≡ args.entry }
        ensures none { IsAt result NoPlace }
    {
        Lineage {
            classes,
            args,
            steps: Vec::new(alloc),
            slots: Tally::new(alloc),
            methods: Tally::new(alloc),
        }
    }

    /// Goes to a class of the module. Answers whether a name is both a slot and a method along it and its bases.
    pub fn visit(&mut self, alloc: Global, number: usize) -> Result<bool, AllocError>
        requires args { self.old.args.now ≡ codes "args" ∷ [] }
        requires lineage { IsLineage self.old }
        ensures classes { self.new.classes ≡ self.old.classes }
        ensures args { self.new.args ≡ self.old.args }
        ensures lineage { OnOk result (IsLineage self.new) }
        ensures clashes { IfOk result (λ is_so. is_so ≡ clash_at self.old.classes.now (Earlier number)) }
    {
        let place = BasePlace::Earlier(number);
        let above = self.classes.above(place);
        self.go_to(alloc, above)?;
        self.enter(place)
    }

    /// Goes to the class at a place: down from the last class that is above it, or from the first.
    fn go_to(&mut self, alloc: Global, place: BasePlace) -> Result<(), AllocError>
        requires args { self.old.args.now ≡ codes "args" ∷ [] }
        requires lineage { IsLineage self.old }
        ensures classes { self.new.classes ≡ self.old.classes }
        ensures args { self.new.args ≡ self.old.args }
        ensures at { OnOk result (IsAt self.new place) }
    {
        self.leave_all_but(place)?;
        if self.steps.is_empty() {
            let mut climbed = self.classes.climb(alloc, place)?;
            while let Some(next) = climbed.pop() {
                self.enter(next)?;
            }
        }
        Ok(())
    }

    /// Leaves classes until the last is that at a place, or there is none.
    fn leave_all_but(&mut self, place: BasePlace) -> Result<(), AllocError>
        requires args { self.old.args.now ≡ codes "args" ∷ [] }
        requires lineage { IsLineage self.old }
        ensures classes { self.new.classes ≡ self.old.classes }
        ensures args { self.new.args ≡ self.old.args }
        ensures at { OnOk result ((IsLineage self.new) × ((self.new.steps.items ≡ []) ⊎ (last_or NoPlace (places_of self.new.steps.items) ≡ place))) }
    {
        while let Some(last) = self.steps.pop() {
            if last.place == place {
                self.steps.push(last)?;
                return Ok(());
            }
            self.slots
                .remove(self.classes.slots_at(last.place, self.args))?;
            self.methods.remove(self.classes.methods_at(last.place))?;
        }
        Ok(())
    }

    /// Goes one class down. Answers whether a name is both a slot and a method along it and its bases.
    fn enter(&mut self, place: BasePlace) -> Result<bool, AllocError>
        requires args { self.old.args.now ≡ codes "args" ∷ [] }
        requires at { IsAt self.old (above self.old.classes.now place) }
        ensures classes { self.new.classes ≡ self.old.classes }
        ensures args { self.new.args ≡ self.old.args }
        ensures at { OnOk result (IsAt self.new place) }
        ensures clashes { IfOk result (λ is_so. is_so ≡ clash_at self.old.classes.now place) }
    {
        let slots = self.classes.slots_at(place, self.args);
        let methods = self.classes.methods_at(place);
        self.slots.add(slots)?;
        self.methods.add(methods)?;
        let clashes = clashes_below(
            self.steps.as_slice(),
            any_in(slots, &self.methods),
            any_in(methods, &self.slots),
        );
        self.steps.push(Step { place, clashes })?;
        Ok(clashes)
    }
}

/// Whether a class below these clashes, where some of its slots are methods, or some of its methods are slots.
fn clashes_below(steps: &[Step], slots: bool, methods: bool) -> bool
    ensures { result ≡ ((spec.last_clashes steps.now || slots) || methods) }
{
    last_clashes(steps) || slots || methods
}

/// Whether the last class clashes.
fn last_clashes(steps: &[Step]) -> bool
    ensures { result ≡ spec.last_clashes steps.now }
{
    match steps.last() {
        Some(step) => step.clashes,
        None => false,
    }
}

/// Whether one of these names is among those that are counted.
fn any_in(names: &[Text], tally: &Tally<'_>) -> bool
    ensures { result ≡ list_any (λ name. nat_lt 0 (count tally.now name)) names.now }
{
    for name in names {
        if tally.of(name) > 0 {
            return true;
        }
    }
    false
}
