ghost use Rattle.std.specs.Prelude.{◌≡◌, ◌<◌, ◌∷◌, [], Some, IfOk, codes, length, slice_get};
ghost use Rattle.std.specs.List.{list_any};
ghost use Rattle.std.specs.Option.{option_map};
ghost use Rattle.symbols.specs.Words.{among};
ghost use Rattle.symbols.specs.BasePlaces.{ArePlaced};

use crate::class::{BasePlace, Class, ClassKind, OwnClass};
use lists::Items;
use py_tree::text::Text;
use std::alloc::{AllocError, Global};
use std::marker::Model;

/// The classes of a module as they were found, whether their bases are classes or not. Each holds its own members alone, and the place
/// of its base.
#[derive(Drop)]
pub(crate) struct FoundClasses {
    /// The number of the module.
    pub home: u32,
    /// The classes of other modules that these are below, each once.
    pub others: Items<ClassKind>,
    pub own: Items<OwnClass>,
    pub ghost placed: { ArePlaced others own },
}

impl FoundClasses {
    ghost use Rattle.symbols.specs.Lineages as spec;
    ghost use Rattle.symbols.specs.Lineages.{Climbs};
    ghost use Rattle.symbols.specs.declared.class.BasePlace.TheVariants.{None as NoPlace};

    /// Where the base of the class at a place stands.
    pub fn above(&self, place: BasePlace) -> BasePlace
        ensures { result ≡ spec.above self.now place }
    {
        match place {
            BasePlace::Earlier(number) => match self.own.as_slice().get(number) {
                Some(class) => class.base.standing(),
                None => BasePlace::None,
            },
            _ => BasePlace::None,
        }
    }

    /// The slots that the class at a place adds to those of its base.
    pub fn slots_at<'a>(&'a self, place: BasePlace, args: &'a [Text]) -> &'a [Text]
        requires { args.now ≡ codes "args" ∷ [] }
        ensures { result.now ≡ spec.slots_at self.now place }
    {
        match place {
            BasePlace::Earlier(number) => match self.own.as_slice().get(number) {
                Some(class) => class.slots.as_slice(),
                None => &[],
            },
            BasePlace::Imported(number) => match self.others.as_slice().get(number) {
                Some(class) => class.slots.as_slice(),
                None => &[],
            },
            BasePlace::Exception(_) => args,
            _ => &[],
        }
    }

    /// The methods that the class at a place adds to those of its base.
    pub fn methods_at(&self, place: BasePlace) -> &[Text]
        ensures { result.now ≡ spec.methods_at self.now place }
    {
        match place {
            BasePlace::Earlier(number) => match self.own.as_slice().get(number) {
                Some(class) => class.methods.as_slice(),
                None => &[],
            },
            BasePlace::Imported(number) => match self.others.as_slice().get(number) {
                Some(class) => class.methods.as_slice(),
                None => &[],
            },
            _ => &[],
        }
    }

    /// The places from that of a class up to that of the last class above it.
    pub fn climb(&self, alloc: Global, place: BasePlace) -> Result<Vec<BasePlace>, AllocError>
        ensures { IfOk result (λ all. Climbs self.now place all.items NoPlace) }
    {
        let mut all = Vec::new(alloc);
        let mut next = place;
        while next.is_class() {
            all.push(next)?;
            next = self.above(next);
        }
        Ok(all)
    }
}

/// The classes of a module in the order of the text. It holds the own members of each alone, and contracts see each class with its bases.
#[derive(Drop)]
pub struct Classes {
    found: FoundClasses,
}

impl Model for Classes {
    ghost use Rattle.std.specs.Prelude.{List};
    ghost use Rattle.symbols.specs.declared.class.Class.{Class};
    ghost use Rattle.symbols.specs.Classes.{classes_in};
    ghost use Rattle.symbols.specs.ClassViews.{founds};

    ghost Value = { List Class };

    ghost view = { λ classes. classes_in (founds classes.found) };
}

impl Classes {
    ghost use Rattle.symbols.specs.Classes.{classes_in};
    ghost use Rattle.symbols.specs.ClassViews.{founds};

    /// Those that were found.
    pub(crate) fn of(found: FoundClasses) -> Classes
        ensures { result ≡ classes_in (founds found) }
    {
        Classes { found }
    }

    /// The number of classes. Takes no memory.
    pub fn len(&self) -> usize
        ensures { result ≡ length self.now }
    {
        self.found.own.len()
    }

    /// A copy of the class with that number, with the members of its bases. In time linear in its members and its bases.
    pub fn class(&self, alloc: Global, number: usize) -> Result<Class, AllocError>
        requires { number < length self.now }
        ensures { IfOk result (λ class. slice_get self.now number ≡ Some class) }
    {
        self.found.class(alloc, number)
    }

    /// Whether the class with that number, or a class above it, has a slot of that name. Takes no memory.
    pub fn has_slot(&self, number: usize, name: &Text) -> bool
        requires { number < length self.now }
        ensures { option_map (λ class. among name.now class.kind.slots) (slice_get self.now number) ≡ Some result }
    {
        self.found.has_slot(BasePlace::Earlier(number), name)
    }

    /// Whether the class with that number, or a class above it, has a method of that name. Takes no memory.
    pub fn has_method(&self, number: usize, name: &Text) -> bool
        requires { number < length self.now }
        ensures { option_map (λ class. among name.now class.kind.methods) (slice_get self.now number) ≡ Some result }
    {
        self.found.has_method(BasePlace::Earlier(number), name)
    }
}
