ghost use Rattle.std.specs.Prelude.{◌≡◌, [], OnOk, OnErr, slice_get};
ghost use Rattle.heap_seg.specs.Defaults.{default_of, rows_of, with_default};

use indexmap::IndexMap;
use py_values::value::Value;
use std::alloc::{AllocError, Global};

/// A parameter of a function.
#[derive(Clone, Copy, Debug, PartialEq, Eq, Hash)]
struct Parameter {
    function: u32,
    number: u32,
}

/// The default value of a parameter, with the numbers of its function and of itself, from 0.
#[derive(Clone, Copy, Debug, PartialEq, Eq)]
pub struct DefaultRow {
    pub function: u32,
    pub param: u32,
    pub value: Value,
}

/// The default values of functions.
#[derive(Drop)]
pub struct Defaults {
    values: IndexMap<Parameter, Value>,
}

impl Defaults {
    /// No default values. Takes no memory.
    pub fn new(alloc: Global) -> Defaults
        ensures empty { rows_of result ≡ [] }
    {
        Defaults {
            values: IndexMap::new(alloc),
        }
    }

    /// Sets the default value of a parameter, by the numbers of its function and of itself.
    pub fn set(&mut self, function: u32, param: u32, value: Value) -> Result<(), AllocError>
        ensures ok { OnOk result (rows_of self.new ≡ with_default function param value (rows_of self.old)) }
        ensures err { OnErr result (rows_of self.new ≡ rows_of self.old) }
    {
        let parameter = Parameter {
            function,
            number: param,
        };
        self.values.insert(parameter, value)?;
        Ok(())
    }

    /// The default value of a parameter, where it was set. Takes no memory.
    pub fn get(&self, function: u32, param: u32) -> Option<Value>
        ensures value { result ≡ default_of function param (rows_of self.now) }
    {
        let parameter = Parameter {
            function,
            number: param,
        };
        self.values.get(&parameter).copied()
    }

    /// The row at a place, from 0. Takes no memory.
    pub fn at(&self, place: usize) -> Option<DefaultRow>
        ensures row { result ≡ slice_get (rows_of self.now) place }
    {
        let (parameter, value) = self.values.get_index(place)?;
        Some(DefaultRow {
            function: parameter.function,
            param: parameter.number,
            value: *value,
        })
    }
}
