ghost use Rattle.std.specs.Prelude.{◌≡◌, ◌+◌, ◌<◌, ◌++◌, Some, IfOk, OnOk, length, map, slice_get};
ghost use Rattle.symbols.specs.Classes.{class_kind, class_of_module, module_classes, outer_kind};
ghost use Rattle.symbols.specs.ClassViews.{StandsAt, kinds_in, kinds_of};
ghost use Rattle.symbols.specs.Places.{AreMembers, ArePlaces, AreStarts, found_inside, member_name, outer_name};

use crate::class::ClassKind;
use crate::name_map::NameMap;
use crate::outer::{ModuleClass, Outer, OuterBinding, OuterKind};
use lists::{ElementAt, Items};
use py_tree::expression::Texts;
use py_tree::text::Text;
use std::alloc::{AllocError, Global};
use std::marker::Model;

/// What a module's names are resolved against, where what its imports bind is found by names.
#[derive(Drop)]
pub(crate) struct Imported<'a> {
    outer: &'a Outer,
    /// The place of the first binding of each name.
    places: NameMap<'a, usize>,
    /// For each binding the place of the first class of each name in what it is bound to.
    members: Vec<NameMap<'a, usize>>,
    /// The classes of all bindings, in their order.
    kinds: Items<ClassKind>,
    /// Where those of each binding begin.
    starts: Vec<usize>,
}

impl<'a> Model for Imported<'a> {
    ghost use Rattle.symbols.specs.declared.outer.Outer.{Outer as Known};
    ghost use Rattle.symbols.specs.ImportTables.{IsImportTable};

    ghost Value = { Known };

    ghost view = { λ table. table.outer.now };

    ghost invariant = { λ table. IsImportTable table.outer.now.bindings table.places table.members.items table.kinds table.starts.items };
}

impl<'a> Imported<'a> {
    pub fn new(alloc: Global, outer: &'a Outer) -> Result<Imported<'a>, AllocError>
        ensures { IfOk result (λ table. table ≡ outer.now) }
    {
        let bindings = outer.bindings.as_slice();
        let places = places_of(alloc, bindings)?;
        let members = members_of(alloc, bindings)?;
        let kinds = kinds_of(alloc, bindings)?;
        let starts = starts_of(alloc, bindings)?;
        Ok(Imported {
            outer,
            places,
            members,
            kinds,
            starts,
        })
    }

    pub fn number(&self) -> u32
        ensures { result ≡ self.now.number }
    {
        self.outer.number
    }

    /// The classes of all bindings.
    pub fn into_kinds(self) -> Items<ClassKind>
        ensures { result ≡ kinds_of self.entry.bindings }
    {
        let Imported {
            outer: _,
            places: _,
            members: _,
            kinds,
            starts: _,
        } = self;
        kinds
    }

    /// The number of the class that this name is bound to, among those of all bindings.
    pub fn class_number(&self, name: &Text) -> Option<usize>
        ensures { StandsAt (kinds_of self.now.bindings) (class_kind (outer_kind self.now name.now)) result }
    {
        let place = self.places.get(name)?;
        match &self.outer.bindings.at(place).kind {
            OuterKind::Class(_) => start_at(self.starts.as_slice(), place),
            _ => None,
        }
    }

    /// The number of the class of that name in the module that this name is bound to, among those of all bindings.
    pub fn member_number(&self, from: &Text, name: &Text) -> Option<usize>
        ensures { StandsAt (kinds_of self.now.bindings) (class_of_module (module_classes (outer_kind self.now from.now)) name.now) result }
    {
        let place = self.places.get(from)?;
        let inside = place_inside(self.members.as_slice(), place, name)?;
        let start = start_at(self.starts.as_slice(), place)?;
        number_behind(self.kinds.as_slice(), start, inside)
    }
}

/// Where the classes of a binding begin.
fn start_at(starts: &[usize], place: usize) -> Option<usize>
    ensures { result ≡ slice_get starts.now place }
{
    starts.get(place).copied()
}

/// The number of what stands so many places behind a start.
fn number_behind(kinds: &[ClassKind], start: usize, inside: usize) -> Option<usize>
    requires { start + inside < length kinds.now }
    ensures { result ≡ Some (start + inside) }
{
    if inside < kinds.len() - start {
        Some(start + inside)
    } else {
        None
    }
}

/// The place of the first class of that name in what the binding at a place is bound to.
fn place_inside(members: &[NameMap<'_, usize>], place: usize, name: &Text) -> Option<usize>
    ensures { result ≡ found_inside (slice_get members.now place) name.now }
{
    match members.get(place) {
        Some(places) => places.get(name),
        None => None,
    }
}

/// The place of the first binding of each name.
fn places_of(alloc: Global, bindings: &[OuterBinding]) -> Result<NameMap<'_, usize>, AllocError>
    ensures { IfOk result (λ places. ArePlaces outer_name bindings.now places) }
{
    let mut places = NameMap::new(alloc);
    for (place, binding) in bindings.iter().enumerate() {
        places.keep(&binding.name, place)?;
    }
    Ok(places)
}

/// For each binding the place of the first class of each name in what it is bound to.
fn members_of(
    alloc: Global,
    bindings: &[OuterBinding],
) -> Result<Vec<NameMap<'_, usize>>, AllocError>
    ensures { IfOk result (λ members. AreMembers bindings.now members.items) }
{
    let mut members = Vec::with_capacity(alloc, bindings.len())?;
    for binding in bindings {
        members.push(members_in(alloc, &binding.kind)?)?;
    }
    Ok(members)
}

/// The place of the first class of each name in what an import binds.
fn members_in(alloc: Global, kind: &OuterKind) -> Result<NameMap<'_, usize>, AllocError>
    ensures { IfOk result (λ places. ArePlaces member_name (module_classes kind.now) places) }
{
    match kind {
        OuterKind::Module(classes) => class_places(alloc, classes.as_slice()),
        _ => Ok(NameMap::new(alloc)),
    }
}

/// The place of the first class of each name.
fn class_places(alloc: Global, classes: &[ModuleClass]) -> Result<NameMap<'_, usize>, AllocError>
    ensures { IfOk result (λ places. ArePlaces member_name classes.now places) }
{
    let mut places = NameMap::new(alloc);
    for (place, class) in classes.iter().enumerate() {
        places.keep(&class.name, place)?;
    }
    Ok(places)
}

/// The classes of all bindings.
fn kinds_of(alloc: Global, bindings: &[OuterBinding]) -> Result<Items<ClassKind>, AllocError>
    ensures { IfOk result (λ kinds. kinds ≡ kinds_of bindings.now) }
{
    let mut kinds = Items::new(alloc);
    for binding in bindings {
        put_kinds(alloc, &binding.kind, &mut kinds)?;
    }
    Ok(kinds)
}

fn put_kinds(
    alloc: Global,
    kind: &OuterKind,
    kinds: &mut Items<ClassKind>,
) -> Result<(), AllocError>
    ensures { OnOk result (kinds.new ≡ kinds.old ++ kinds_in kind.now) }
{
    match kind {
        OuterKind::Class(class) => kinds.push(class.copy(alloc)?),
        OuterKind::Module(classes) => put_classes(alloc, classes.as_slice(), kinds),
        OuterKind::Other => Ok(()),
    }
}

fn put_classes(
    alloc: Global,
    classes: &[ModuleClass],
    kinds: &mut Items<ClassKind>,
) -> Result<(), AllocError>
    ensures { OnOk result (kinds.new ≡ kinds.old ++ map (λ c. c.class) classes.now) }
{
    for class in classes {
        kinds.push(class.class.copy(alloc)?)?;
    }
    Ok(())
}

/// Where the classes of each binding begin among those of all.
fn starts_of(alloc: Global, bindings: &[OuterBinding]) -> Result<Vec<usize>, AllocError>
    ensures { IfOk result (λ starts. AreStarts bindings.now starts.items) }
{
    let mut starts = Vec::new(alloc);
    let mut start = 0usize;
    for binding in bindings {
        starts.push(start)?;
        start = start
            .checked_add(class_count(&binding.kind))
            .ok_or(AllocError)?;
    }
    Ok(starts)
}

/// The number of classes that a binding has.
fn class_count(kind: &OuterKind) -> usize
    ensures { result ≡ length (kinds_in kind.now) }
{
    match kind {
        OuterKind::Class(_) => 1,
        OuterKind::Module(classes) => classes.len(),
        OuterKind::Other => 0,
    }
}

impl ClassKind {
    /// An equal one.
    pub fn copy(&self, alloc: Global) -> Result<ClassKind, AllocError>
        ensures equal { IfOk result (λ copy. copy ≡ self.now) }
    {
        Ok(ClassKind {
            id: self.id,
            slots: copy_texts(alloc, self.slots.as_slice())?,
            methods: copy_texts(alloc, self.methods.as_slice())?,
        })
    }
}

fn copy_texts(alloc: Global, texts: &[Text]) -> Result<Texts, AllocError>
    ensures { IfOk result (λ copy. copy ≡ texts.now) }
{
    let mut copy = Items::new(alloc);
    for text in texts {
        copy.push(text.copy(alloc)?)?;
    }
    Ok(copy)
}
