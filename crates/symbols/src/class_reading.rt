ghost use Rattle.std.specs.Prelude.{◌≡◌, ◌<◌, ◌∷◌, [], Some, IfOk, OnOk, codes, length, slice_get};
ghost use Rattle.py_values.specs.declared.class_id.ClassId.TheVariants as user;
ghost use Rattle.symbols.specs.Bindings.{first_mentions};
ghost use Rattle.symbols.specs.Classes.{base_id, base_methods, base_slots, classes_in};
ghost use Rattle.symbols.specs.ClassViews.{founds};
ghost use Rattle.symbols.specs.Lineages.{kind_of, slots_at};
ghost use Rattle.symbols.specs.Names.{with_names};
ghost use Rattle.symbols.specs.Words.{among};
ghost use Rattle.symbols.specs.declared.class.BasePlace.TheVariants.{Earlier, Imported};

use crate::class::{BasePlace, Class, ClassKind};
use crate::class_list::FoundClasses;
use crate::names::Names;
use crate::words::{is_same, is_word};
use lists::ElementAt;
use py_tree::expression::Texts;
use py_tree::text::Text;
use py_values::class_id::ClassId;
use std::alloc::{AllocError, Global};

impl FoundClasses {
    /// The class with that number, with the members of its bases.
    pub fn class(&self, alloc: Global, number: usize) -> Result<Class, AllocError>
        requires { number < length self.now.own }
        ensures { IfOk result (λ class. slice_get (classes_in (founds self.now)) number ≡ Some class) }
    {
        let place = BasePlace::Earlier(number);
        let own = self.own.at(number);
        let args = args_slots(alloc)?;
        let id = self.user_id(number)?;
        let base = self.id_at(self.above(place))?;
        let slots = self.all_slots(alloc, place, args.as_slice())?;
        let methods = self.all_methods(alloc, place)?;
        let own_methods = each_once(alloc, own.methods.as_slice())?;
        let name = own.name.copy(alloc)?;
        Ok(Class {
            name,
            line: own.line,
            base,
            kind: ClassKind { id, slots, methods },
            methods: own_methods,
        })
    }

    /// What names the class with that number.
    fn user_id(&self, number: usize) -> Result<ClassId, AllocError>
        ensures { IfOk result (λ id. id ≡ user.User self.now.home number) }
    {
        let number = u32::try_from(number).map_err(|_| AllocError)?;
        Ok(ClassId::User {
            home: self.home,
            number,
        })
    }

    /// What names the class at a place, if there is one.
    fn id_at(&self, place: BasePlace) -> Result<Option<ClassId>, AllocError>
        ensures { IfOk result (λ id. id ≡ base_id (kind_of self.now place)) }
    {
        match place {
            BasePlace::Earlier(number) => self.earlier_id(number),
            BasePlace::Imported(number) => Ok(self.imported_id(number)),
            BasePlace::Exception(kind) => Ok(Some(ClassId::Exc(kind))),
            BasePlace::None | BasePlace::Bad => Ok(None),
        }
    }

    fn earlier_id(&self, number: usize) -> Result<Option<ClassId>, AllocError>
        ensures { IfOk result (λ id. id ≡ base_id (kind_of self.now (Earlier number))) }
    {
        if number < self.own.len() {
            let id = self.user_id(number)?;
            return Ok(Some(id));
        }
        Ok(None)
    }

    fn imported_id(&self, number: usize) -> Option<ClassId>
        ensures { result ≡ base_id (kind_of self.now (Imported number)) }
    {
        match self.others.as_slice().get(number) {
            Some(class) => Some(class.id),
            None => None,
        }
    }

    /// The slots of the class at a place and of those above it, each once.
    fn all_slots(&self, alloc: Global, place: BasePlace, args: &[Text]) -> Result<Texts, AllocError>
        requires { args.now ≡ codes "args" ∷ [] }
        ensures { IfOk result (λ all. all ≡ first_mentions (base_slots (kind_of self.now place))) }
    {
        let mut climbed = self.climb(alloc, place)?;
        let mut names = Names::new(alloc);
        while let Some(next) = climbed.pop() {
            add_texts(self.slots_at(next, args), &mut names)?;
        }
        names.texts(alloc)
    }

    /// The methods of the class at a place and of those above it, each once.
    fn all_methods(&self, alloc: Global, place: BasePlace) -> Result<Texts, AllocError>
        ensures { IfOk result (λ all. all ≡ first_mentions (base_methods (kind_of self.now place))) }
    {
        let mut climbed = self.climb(alloc, place)?;
        let mut names = Names::new(alloc);
        while let Some(next) = climbed.pop() {
            add_texts(self.methods_at(next), &mut names)?;
        }
        names.texts(alloc)
    }

    /// Whether the class at a place, or one above it, has a slot of that name.
    pub fn has_slot(&self, place: BasePlace, name: &Text) -> bool
        ensures { result ≡ among name.now (base_slots (kind_of self.now place)) }
    {
        let mut next = place;
        while next.is_class() {
            if self.adds_slot(next, name) {
                return true;
            }
            next = self.above(next);
        }
        false
    }

    /// Whether the class at a place, or one above it, has a method of that name.
    pub fn has_method(&self, place: BasePlace, name: &Text) -> bool
        ensures { result ≡ among name.now (base_methods (kind_of self.now place)) }
    {
        let mut next = place;
        while next.is_class() {
            if has_name(self.methods_at(next), name) {
                return true;
            }
            next = self.above(next);
        }
        false
    }

    /// Whether the class at a place adds a slot of that name to those of its base.
    fn adds_slot(&self, place: BasePlace, name: &Text) -> bool
        ensures { result ≡ among name.now (slots_at self.now place) }
    {
        match place {
            BasePlace::Earlier(number) => match self.own.as_slice().get(number) {
                Some(class) => has_name(class.slots.as_slice(), name),
                None => false,
            },
            BasePlace::Imported(number) => match self.others.as_slice().get(number) {
                Some(class) => has_name(class.slots.as_slice(), name),
                None => false,
            },
            BasePlace::Exception(_) => is_word(name, b"args"),
            _ => false,
        }
    }
}

/// Whether a name is among these.
fn has_name(names: &[Text], name: &Text) -> bool
    ensures { result ≡ among name.now names.now }
{
    for other in names {
        if is_same(name, other) {
            return true;
        }
    }
    false
}

/// The slots of an exception class.
pub(crate) fn args_slots(alloc: Global) -> Result<Texts, AllocError>
    ensures { IfOk result (λ slots. slots ≡ codes "args" ∷ []) }
{
    let mut slots = Texts::new(alloc);
    slots.push(Text::from_slice(alloc, &['a', 'r', 'g', 's'])?)?;
    Ok(slots)
}

/// These names, each once.
#[tactic(auto, using(crate::proofs::Sets::with_names_first))]
fn each_once(alloc: Global, texts: &[Text]) -> Result<Texts, AllocError>
    ensures { IfOk result (λ all. all ≡ first_mentions texts.now) }
{
    let mut names = Names::new(alloc);
    add_texts(texts, &mut names)?;
    names.texts(alloc)
}

fn add_texts<'a>(texts: &'a [Text], names: &mut Names<'a>) -> Result<(), AllocError>
    ensures { OnOk result (names.new ≡ with_names names.old texts.now) }
{
    for text in texts {
        names.add(text)?;
    }
    Ok(())
}
