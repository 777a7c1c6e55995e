ghost use Rattle.std.specs.Prelude.{◌≡◌, ◌<◌, ◌≤◌, ◌++◌, [], ◌∷◌, false, IfOk, length};
ghost use Rattle.std.specs.Option.{option_copied};
ghost use Rattle.registry_core.specs.Imports.{verdict_of, has_row};

use std::alloc::{AllocError, Global};
use std::marker::Model;
use std::sync::Arc;

/// The verdict of one module.
#[derive(Drop)]
pub struct Import<V> {
    /// The number of the module, from 0.
    pub module: u32,
    pub verdict: Arc<V>,
}

/// The verdicts of the modules that a module needs. Contracts see it as the list of its rows, and for how many rows it has room, those that
/// stand in it too.
#[derive(Drop)]
pub struct Imports<V> {
    rows: Vec<Import<V>>,
}

impl<V> Model for Imports<V> {
    ghost use Rattle.registry_core.specs.Imports.{ImportsView};

    ghost Value = { ImportsView V };

    ghost use Rattle.std.specs.Vec.{vec_capacity};

    ghost view = { λ imports. record { rows = imports.rows.items; room = vec_capacity imports.rows } };
}

impl<V: Drop> Imports<V> {
    /// An empty list with room for so many rows.
    pub fn with_room(alloc: Global, count: u32) -> Result<Imports<V>, AllocError>
        ensures empty { IfOk result (λ made. made.rows ≡ []) }
        ensures room { IfOk result (λ made. count ≤ made.room) }
    {
        Ok(Imports {
            rows: Vec::with_capacity(alloc, count as usize)?,
        })
    }

    /// The rows, in the order in which they were put in.
    pub fn as_slice(&self) -> &[Import<V>]
        ensures { result.now ≡ self.now.rows }
    {
        self.rows.as_slice()
    }

    /// The verdict of the module, where it has a row. In time linear in the rows.
    pub fn get(&self, module: u32) -> Option<&Arc<V>>
        ensures { option_copied result ≡ verdict_of self.now.rows «module» }
    {
        self.rows
            .iter()
            .find(|row| row.module == module)
            .map(|row| &row.verdict)
    }

    /// Appends the verdict of a module that has no row yet.
    pub fn put(&mut self, module: u32, verdict: Arc<V>)
        requires room { length self.old.rows < self.old.room }
        requires absent { has_row self.old.rows «module» ≡ false }
        ensures rows { self.new.rows ≡ self.old.rows ++ record { «module» = «module»; verdict = verdict } ∷ [] }
        ensures room { self.new.room ≡ self.old.room }
    {
        self.append(module, verdict);
    }

    /// Appends a row.
    pub(crate) fn append(&mut self, module: u32, verdict: Arc<V>)
        requires { length self.old.rows < self.old.room }
        ensures rows { self.new.rows ≡ self.old.rows ++ record { «module» = «module»; verdict = verdict } ∷ [] }
        ensures room { self.new.room ≡ self.old.room }
    {
        self.rows.push_reserved(Import { module, verdict });
    }

    /// Takes all rows out, and keeps the room.
    pub(crate) fn clear(&mut self)
        ensures rows { self.new.rows ≡ [] }
        ensures room { self.new.room ≡ self.old.room }
    {
        self.rows.clear();
    }
}
