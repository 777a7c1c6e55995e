ghost use Rattle.std.specs.Prelude.{◌≡◌, None, Some, IfOk, OnOk, if◌then◌else◌};
ghost use Rattle.std.specs.Option.{option_or};
ghost use Rattle.std.specs.Str.{bytes_eq};
ghost use Rattle.py_tree.specs.Syntax.{Text as Name};
ghost use Rattle.module_load.specs.NamePlaces.{first_place};

use indexmap::IndexMap;
use py_tree::text::Text;
use std::alloc::{AllocError, Global};

/// The first places of names in a list.
#[derive(Drop)]
pub(crate) struct NamePlaces {
    map: IndexMap<Vec<char>, usize>,
}

impl NamePlaces {
    /// No name has a place; there is room for so many.
    pub(crate) fn with_room(alloc: Global, count: usize) -> Result<NamePlaces, AllocError>
        ensures { IfOk result (λ places. (name : Name) → first_place places name ≡ None) }
    {
        Ok(NamePlaces {
            map: IndexMap::with_capacity(alloc, count)?,
        })
    }

    pub(crate) fn get(&self, name: &Text) -> Option<usize>
        ensures { result ≡ first_place self.now name.now }
    {
        self.map.get(name.as_slice()).copied()
    }

    /// Notes the place of a name that has none.
    pub(crate) fn note(
        &mut self,
        alloc: Global,
        name: &Text,
        place: usize,
    ) -> Result<(), AllocError>
        ensures { OnOk result ((other : Name) → first_place self.new other ≡ option_or (first_place self.old other) (if bytes_eq other name.now then Some place else None)) }
    {
        if self.map.get(name.as_slice()).is_none() {
            let key = Vec::from_slice(alloc, name.as_slice())?;
            self.map.insert(key, place)?;
        }
        Ok(())
    }
}
