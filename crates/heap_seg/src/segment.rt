ghost use Rattle.std.specs.Prelude.{◌≡◌, ◌≢◌, ◌<◌, [], Some, OnOk, OnErr, IfOk, length, slice_get, pos};
ghost use Rattle.heap_seg.specs.Defaults.{default_of, with_default};
ghost use Rattle.heap_seg.specs.Globals.{set_at, unbound, unset_at, values_of};
ghost use Rattle.heap_seg.specs.Segments.{ChangesDefaults, ChangesGlobals, FitsAt, IsChanged, IsMade, Same, defaults_in, globals_in, home_of, things};
ghost use Rattle.heap_seg.specs.Things.{thing_of};
ghost use Rattle.heap_seg.specs.Things as thing;

use crate::defaults::{DefaultRow, Defaults};
use crate::globals::{Global, Globals};
use crate::object::{Change, Object, Slots, Values};
use key_map::map::KeyMap;
use lists::{ElementAt, Items};
use py_tree::expression::Texts;
use py_tree::text::Text;
use py_values::class_id::ClassId;
use py_values::int::PyInt;
use py_values::value::{Home, Ref, Value};
use std::alloc::{AllocError, Global as Heap};

/// The objects of one home in the order in which they were made, with the globals of its run and the default values of its functions.
#[derive(Drop)]
pub struct Segment {
    alloc: Heap,
    home: Home,
    objects: Vec<Object>,
    globals: Globals,
    defaults: Defaults,
}

impl Segment {
    /// A segment without objects, globals and default values. Takes no memory.
    pub fn new(alloc: Heap, home: Home) -> Segment
        ensures home { home_of result ≡ home }
        ensures things { things result ≡ [] }
        ensures globals { globals_in result ≡ [] }
        ensures defaults { defaults_in result ≡ [] }
    {
        Segment {
            alloc,
            home,
            objects: Vec::new(alloc),
            globals: Globals::new(alloc),
            defaults: Defaults::new(alloc),
        }
    }

    /// Puts an object behind the others.
    fn make(&mut self, object: Object) -> Result<Ref, AllocError>
        ensures ok { IfOk result (λ made. IsMade (thing_of object) self.old self.new made) }
        ensures err { OnErr result (Same self.old self.new) }
    {
        let place = self.objects.len();
        self.objects.push(object)?;
        Ok(Ref {
            home: self.home,
            place,
        })
    }

    /// Makes a list of these items.
    pub fn make_list(&mut self, items: &[Value]) -> Result<Ref, AllocError>
        ensures ok { IfOk result (λ made. IsMade (thing.Listed items.now) self.old self.new made) }
        ensures err { OnErr result (Same self.old self.new) }
    {
        let items = Values::from_slice(self.alloc, items)?;
        self.make(Object::List(items))
    }

    /// Makes a tuple of these items.
    pub fn make_tuple(&mut self, items: &[Value]) -> Result<Ref, AllocError>
        ensures ok { IfOk result (λ made. IsMade (thing.Tupled items.now) self.old self.new made) }
        ensures err { OnErr result (Same self.old self.new) }
    {
        let items = Values::from_slice(self.alloc, items)?;
        self.make(Object::Tuple(items))
    }

    /// Makes a text of these code points.
    pub fn make_text(&mut self, text: &[char]) -> Result<Ref, AllocError>
        ensures ok { IfOk result (λ made. IsMade (thing.Texted text.now) self.old self.new made) }
        ensures err { OnErr result (Same self.old self.new) }
    {
        let text = Text::from_slice(self.alloc, text)?;
        self.make(Object::Text(text))
    }

    /// Makes a dictionary without entries.
    pub fn make_dict(&mut self) -> Result<Ref, AllocError>
        ensures ok { IfOk result (λ made. IsMade (thing.Mapped []) self.old self.new made) }
        ensures err { OnErr result (Same self.old self.new) }
    {
        self.make(Object::Dict(KeyMap::new(self.alloc)))
    }

    /// Makes a range. Its step isn't 0.
    pub fn make_range(&mut self, start: PyInt, stop: PyInt, step: PyInt) -> Result<Ref, AllocError>
        requires step { step ≢ pos 0 }
        ensures ok { IfOk result (λ made. IsMade (thing.Ranged start stop step) self.old self.new made) }
        ensures err { OnErr result (Same self.old self.new) }
    {
        self.make(Object::Range { start, stop, step })
    }

    /// Makes a method that is bound to a receiver.
    pub fn make_bound(&mut self, receiver: Value, method: Value) -> Result<Ref, AllocError>
        ensures ok { IfOk result (λ made. IsMade (thing.Bound receiver method) self.old self.new made) }
        ensures err { OnErr result (Same self.old self.new) }
    {
        self.make(Object::Bound { receiver, method })
    }

    /// Makes an instance of a class with these slots.
    pub fn make_instance(
        &mut self,
        class: ClassId,
        opening: &[Option<Value>],
    ) -> Result<Ref, AllocError>
        ensures ok { IfOk result (λ made. IsMade (thing.Instance class opening.now) self.old self.new made) }
        ensures err { OnErr result (Same self.old self.new) }
    {
        let slots = Slots::from_slice(self.alloc, opening)?;
        self.make(Object::Instance { class, slots })
    }

    /// Makes a list that holds these items themselves. Takes no memory for them.
    pub fn make_list_of(&mut self, items: Values) -> Result<Ref, AllocError>
        ensures ok { IfOk result (λ made. IsMade (thing.Listed items) self.old self.new made) }
        ensures err { OnErr result (Same self.old self.new) }
    {
        self.make(Object::List(items))
    }

    /// Makes a text that holds this one itself. Takes no memory for its code points.
    pub fn make_text_of(&mut self, text: Text) -> Result<Ref, AllocError>
        ensures ok { IfOk result (λ made. IsMade (thing.Texted text) self.old self.new made) }
        ensures err { OnErr result (Same self.old self.new) }
    {
        self.make(Object::Text(text))
    }

    /// The home of its objects. Takes no memory.
    pub fn home(&self) -> Home
        ensures home { result ≡ home_of self.now }
    {
        self.home
    }

    /// The number of objects. Takes no memory.
    pub fn len(&self) -> usize
        ensures count { result ≡ length (things self.now) }
    {
        self.objects.len()
    }

    /// The object at a place. Takes no memory.
    pub fn get(&self, place: usize) -> &Object
        requires there { place < length (things self.now) }
        ensures thing { slice_get (things self.now) place ≡ Some (thing_of result.now) }
    {
        &self.objects[place]
    }

    /// Changes the object at a place, which the change fits. Where no memory is found, the segment is as before.
    pub fn write(&mut self, place: usize, change: Change) -> Result<(), AllocError>
        requires fits { FitsAt (things self.old) place change }
        ensures ok { OnOk result (IsChanged place change self.old self.new) }
        ensures err { OnErr result (Same self.old self.new) }
        ensures count { length (things self.new) ≡ length (things self.old) }
    {
        self.objects[place].apply(change)
    }

    /// Sets the default value of a parameter, by the numbers of its function and of itself.
    pub fn set_default(&mut self, function: u32, param: u32, value: Value) -> Result<(), AllocError>
        ensures ok { OnOk result ((defaults_in self.new ≡ with_default function param value (defaults_in self.old)) × ChangesDefaults self.old self.new) }
        ensures err { OnErr result (Same self.old self.new) }
    {
        self.defaults.set(function, param, value)
    }

    /// The default value of a parameter, where it was set. Takes no memory.
    pub fn default_value(&self, function: u32, param: u32) -> Option<Value>
        ensures value { result ≡ default_of function param (defaults_in self.now) }
    {
        self.defaults.get(function, param)
    }

    /// The row of the default values at a place, from 0. Takes no memory.
    pub fn default_at(&self, place: usize) -> Option<DefaultRow>
        ensures row { result ≡ slice_get (defaults_in self.now) place }
    {
        self.defaults.at(place)
    }

    /// Puts globals of these names, none of them bound, in the place of those that are there.
    pub fn open_globals(&mut self, names: &Texts) -> Result<(), AllocError>
        ensures ok { OnOk result ((globals_in self.new ≡ unbound names.now) × ChangesGlobals self.old self.new) }
        ensures err { OnErr result (Same self.old self.new) }
    {
        self.globals = all_unbound(self.alloc, names)?;
        Ok(())
    }

    /// Binds a global, by its number from 0. Takes no memory.
    pub fn set_global(&mut self, number: u32, value: Value)
        requires there { number < length (globals_in self.old) }
        ensures bound { globals_in self.new ≡ set_at (globals_in self.old) number value }
        ensures others { ChangesGlobals self.old self.new }
    {
        self.globals.set(number as usize, Some(value));
    }

    /// Unbinds a global, by its number from 0. Takes no memory.
    pub fn unset_global(&mut self, number: u32)
        requires there { number < length (globals_in self.old) }
        ensures unbound { globals_in self.new ≡ unset_at (globals_in self.old) number }
        ensures others { ChangesGlobals self.old self.new }
    {
        self.globals.set(number as usize, None);
    }

    /// The value of a global, by its number from 0, where it is bound. Takes no memory.
    pub fn global(&self, number: u32) -> Option<Value>
        requires there { number < length (globals_in self.now) }
        ensures value { slice_get (values_of (globals_in self.now)) number ≡ Some result }
    {
        self.globals.at(number as usize).value
    }

    /// Gives the globals, and leaves none. Takes no memory.
    pub fn take_globals(&mut self) -> Globals
        ensures taken { result ≡ globals_in self.old }
        ensures none { globals_in self.new ≡ [] }
        ensures others { ChangesGlobals self.old self.new }
    {
        std::mem::replace(&mut self.globals, Globals::new(self.alloc))
    }
}

/// A global of each name, none of them bound.
fn all_unbound(alloc: Heap, names: &Texts) -> Result<Globals, AllocError>
    ensures { IfOk result (λ globals. globals ≡ unbound names.now) }
{
    let mut globals = Globals::new(alloc);
    for name in names.as_slice() {
        globals.push(Global {
            name: name.copy(alloc)?,
            value: None,
        })?;
    }
    Ok(globals)
}
