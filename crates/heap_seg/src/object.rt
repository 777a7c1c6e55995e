ghost use Rattle.std.specs.Prelude.{◌≡◌, OnOk, OnErr};
ghost use Rattle.heap_seg.specs.Things.{Fits, changed, thing_of};
ghost use Rattle.heap_seg.specs.declared.object.Change.TheVariants as change;

use key_map::key::Key;
use key_map::map::KeyMap;
use lists::Items;
use py_tree::text::Text;
use py_values::class_id::ClassId;
use py_values::int::PyInt;
use py_values::value::Value;
use std::alloc::AllocError;

/// The values of a list or a tuple.
pub type Values = Items<Value>;

/// The slots of an instance. One that wasn't written yet has no value.
pub type Slots = Items<Option<Value>>;

/// What stands at a place (Python reference: the standard type hierarchy).
#[derive(Drop)]
pub enum Object {
    List(Values),
    Tuple(Values),
    Text(Text),
    /// Each entry has the key as it was put first.
    Dict(KeyMap<Value, Value>),
    Range {
        start: PyInt,
        stop: PyInt,
        /// Not 0 where a segment made it.
        step: PyInt,
    },
    /// A method with the value that it was read from.
    Bound {
        receiver: Value,
        method: Value,
    },
    Instance {
        class: ClassId,
        slots: Slots,
    },
}

/// A change of an object.
#[derive(Drop)]
pub enum Change {
    /// Puts a value behind the items of a list.
    Push(Value),
    /// Sets an item of a list, by its place from 0.
    SetItem(usize, Value),
    /// Gives a key of a dictionary, with the form in which it is shown, that value.
    Put(Key, Value, Value),
    /// Sets a slot of an instance, by its number from 0.
    SetSlot(u32, Value),
}

impl Object {
    /// Makes the change, which fits the object. Where no memory is found, the object is as before.
    pub fn apply(&mut self, change: Change) -> Result<(), AllocError>
        requires fits { Fits (thing_of self.old) change }
        ensures ok { OnOk result (thing_of self.new ≡ changed (thing_of self.old) change) }
        ensures err { OnErr result (thing_of self.new ≡ thing_of self.old) }
    {
        match change {
            Change::Push(value) => self.push(value),
            Change::SetItem(place, value) => {
                self.set_item(place, value);
                Ok(())
            }
            Change::Put(key, shown, value) => self.put(key, shown, value),
            Change::SetSlot(number, value) => {
                self.set_slot(number, value);
                Ok(())
            }
        }
    }

    fn push(&mut self, value: Value) -> Result<(), AllocError>
        requires fits { Fits (thing_of self.old) (change.Push value) }
        ensures ok { OnOk result (thing_of self.new ≡ changed (thing_of self.old) (change.Push value)) }
        ensures err { OnErr result (thing_of self.new ≡ thing_of self.old) }
    {
        match self {
            Object::List(items) => items.push(value),
            _ => unreachable!(),
        }
    }

    fn set_item(&mut self, place: usize, value: Value)
        requires fits { Fits (thing_of self.old) (change.SetItem place value) }
        ensures set { thing_of self.new ≡ changed (thing_of self.old) (change.SetItem place value) }
    {
        match self {
            Object::List(items) => items.set(place, value),
            _ => unreachable!(),
        }
    }

    fn put(&mut self, key: Key, shown: Value, value: Value) -> Result<(), AllocError>
        requires fits { Fits (thing_of self.old) (change.Put key shown value) }
        ensures ok { OnOk result (thing_of self.new ≡ changed (thing_of self.old) (change.Put key shown value)) }
        ensures err { OnErr result (thing_of self.new ≡ thing_of self.old) }
    {
        match self {
            Object::Dict(entries) => entries.put(key, shown, value),
            _ => unreachable!(),
        }
    }

    fn set_slot(&mut self, number: u32, value: Value)
        requires fits { Fits (thing_of self.old) (change.SetSlot number value) }
        ensures set { thing_of self.new ≡ changed (thing_of self.old) (change.SetSlot number value) }
    {
        match self {
            Object::Instance { slots, .. } => slots.set(number as usize, Some(value)),
            _ => unreachable!(),
        }
    }
}
