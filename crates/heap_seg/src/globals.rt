ghost use Rattle.std.specs.Prelude.{◌≡◌, ◌<◌, ◌++◌, [], ◌∷◌, Some, OnOk, OnErr, length, slice_get};
ghost use Rattle.heap_seg.specs.Globals.{with_value};

use py_tree::text::Text;
use py_values::value::Value;
use std::alloc::{AllocError, Global as Heap};
use std::marker::Model;

/// A name at module level, with its value where it is bound.
#[derive(Drop)]
pub struct Global {
    pub name: Text,
    pub value: Option<Value>,
}

/// The globals of a run, in the order of the module's names.
#[derive(Drop)]
pub struct Globals {
    rows: Vec<Global>,
}

impl Model for Globals {
    ghost use Rattle.std.specs.Prelude.{List};
    ghost use Rattle.heap_seg.specs.declared.globals.Global.{Global};

    ghost Value = { List Global };

    ghost view = { λ globals. globals.rows.items };
}

impl Globals {
    /// No globals. Takes no memory.
    pub fn new(alloc: Heap) -> Globals
        ensures empty { result ≡ [] }
    {
        Globals {
            rows: Vec::new(alloc),
        }
    }

    /// Puts a global behind the others.
    pub fn push(&mut self, global: Global) -> Result<(), AllocError>
        ensures ok { OnOk result (self.new ≡ self.old ++ global ∷ []) }
        ensures err { OnErr result (self.new ≡ self.old) }
    {
        self.rows.push(global)?;
        Ok(())
    }

    /// The number of globals. Takes no memory.
    pub fn len(&self) -> usize
        ensures count { result ≡ length self.now }
    {
        self.rows.len()
    }

    /// The global at a place, from 0. Takes no memory.
    pub fn at(&self, place: usize) -> &Global
        requires there { place < length self.now }
        ensures global { slice_get self.now place ≡ Some result.now }
    {
        &self.rows[place]
    }

    /// Binds the global at a place, from 0, or unbinds it. Takes no memory.
    pub fn set(&mut self, place: usize, value: Option<Value>)
        requires there { place < length self.old }
        ensures bound { self.new ≡ with_value self.old place value }
    {
        self.rows[place].value = value;
    }
}
