ghost use Rattle.std.specs.Prelude.{◌≡◌, None, Some, OnErr, OnOk, if◌then◌else◌};
ghost use Rattle.std.specs.Option.{option_or};
ghost use Rattle.std.specs.Str.{bytes_eq};
ghost use Rattle.py_tree.specs.Syntax.{Text as Name};
ghost use Rattle.symbols.specs.Names.{found};

use indexmap::IndexMap;
use py_tree::text::Text;
use std::alloc::{AllocError, Global};

/// Names, each with a value.
#[derive(Drop)]
pub struct NameMap<'a, V> {
    map: IndexMap<&'a [char], V>,
}

impl<'a, V: Copy> NameMap<'a, V> {
    /// No names.
    pub fn new(alloc: Global) -> NameMap<'a, V>
        ensures { (name : Name) → found result name ≡ None }
    {
        NameMap {
            map: IndexMap::new(alloc),
        }
    }

    /// The value of a name.
    pub fn get(&self, name: &Text) -> Option<V>
        ensures { result ≡ found self.now name.now }
    {
        self.of_points(name.as_slice())
    }

    /// The value of the name of these code points.
    pub fn of_points(&self, name: &[char]) -> Option<V>
        ensures { result ≡ found self.now name.now }
    {
        self.map.get(name).copied()
    }

    /// Gives a name its value in place of the one that it has.
    pub fn put(&mut self, name: &'a Text, value: V) -> Result<(), AllocError>
        ensures found { OnOk result ((other : Name) → found self.new other ≡ (if bytes_eq other name.now then Some value else found self.old other)) }
        ensures err { OnErr result ((other : Name) → found self.new other ≡ found self.old other) }
    {
        self.map.insert(name.as_slice(), value)?;
        Ok(())
    }

    /// Gives a name its value, where it has none.
    pub fn keep(&mut self, name: &'a Text, value: V) -> Result<(), AllocError>
        ensures found { OnOk result ((other : Name) → found self.new other ≡ option_or (found self.old other) (if bytes_eq other name.now then Some value else None)) }
        ensures err { OnErr result ((other : Name) → found self.new other ≡ found self.old other) }
    {
        if self.map.get(name.as_slice()).is_none() {
            self.map.insert(name.as_slice(), value)?;
        }
        Ok(())
    }
}
