ghost use Rattle.std.specs.Prelude.{◌≡◌, [], IfOk, OnOk, OnErr, MatchOption, length, map, slice_get, None, Some};
ghost use Rattle.std.specs.List.{IsDistinct};
ghost use Rattle.std.specs.Option.{option_copied, option_map};
ghost use Rattle.key_map.specs.Entries.{IsEntry, entries, find_entry, keys_in, put_entry};
ghost use Rattle.key_map.specs.Keys.{key_of, same};

use crate::key::Key;
use indexmap::IndexMap;
use std::alloc::{AllocError, Global};

/// A value of a dictionary, and its key as it was put first.
#[derive(Drop)]
struct Row<S, V> {
    shown: S,
    value: V,
}

impl<S, V> Row<S, V> {
    fn shown(&self) -> &S
        ensures { result.now ≡ self.now.shown }
    {
        &self.shown
    }

    fn value(&self) -> &V
        ensures { result.now ≡ self.now.value }
    {
        &self.value
    }
}

/// A dictionary: distinct keys with their values, in the order in which the keys were put (Python reference: dictionaries).
#[derive(Drop)]
pub struct KeyMap<S, V> {
    rows: IndexMap<Key, Row<S, V>>,
}

impl<S: Drop, V: Drop> KeyMap<S, V> {
    /// The dictionary without entries. Takes no memory.
    pub fn new(alloc: Global) -> KeyMap<S, V>
        ensures empty { entries result ≡ [] }
    {
        KeyMap {
            rows: IndexMap::new(alloc),
        }
    }

    /// Gives the key that value. A key that is there keeps its place and the form in which it was put first.
    pub fn put(&mut self, key: Key, shown: S, value: V) -> Result<(), AllocError>
        ensures ok { OnOk result (entries self.new ≡ put_entry (key_of key) shown value (entries self.old)) }
        ensures err { OnErr result (entries self.new ≡ entries self.old) }
    {
        match self.rows.get_mut(&key) {
            Some(row) => row.value = value,
            None => {
                self.rows.insert(key, Row { shown, value })?;
            }
        }
        Ok(())
    }

    /// The value of the key. Takes no memory.
    pub fn find(&self, key: &Key) -> Option<&V>
        ensures value { option_copied result ≡ find_entry (key_of key.now) (entries self.now) }
    {
        match self.rows.get(key) {
            Some(row) => Some(row.value()),
            None => None,
        }
    }

    /// The entry at a place, from 0: the form in which its key was put first, and its value. Takes no memory.
    pub fn at(&self, place: usize) -> Option<(&S, &V)>
        ensures entry { MatchOption result (slice_get (entries self.now) place ≡ None) (λ found. IsEntry (entries self.now) place found.0.now found.1.now) }
    {
        match self.rows.get_index(place) {
            Some((_, row)) => Some((row.shown(), row.value())),
            None => None,
        }
    }

    /// The key of the entry at a place, from 0. Takes no memory.
    pub fn key_at(&self, place: usize) -> Option<&Key>
        ensures key { option_map key_of (option_copied result) ≡ slice_get (keys_in (entries self.now)) place }
    {
        match self.rows.get_index(place) {
            Some((key, _)) => Some(key),
            None => None,
        }
    }

    /// The number of entries. Takes no memory.
    pub fn len(&self) -> usize
        ensures count { result ≡ length (entries self.now) }
        // No two entries have the same key.
        ensures distinct { IsDistinct same (keys_in (entries self.now)) }
    {
        self.rows.len()
    }
}
