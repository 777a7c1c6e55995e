ghost use Rattle.std.specs.Prelude.{◌≡◌, IfOk, length, map};
ghost use Rattle.std.specs.Option.{option_copied};
ghost use Rattle.module_load.specs.Decisions.{global_named};
ghost use Rattle.module_load.specs.NamePlaces.{ArePlacesOf};
ghost use Rattle.module_load.specs.declared.globals.ModuleGlobal.{ModuleGlobal as Row};

use crate::name_places::NamePlaces;
use lists::{ElementAt, Items};
use py_tree::text::Text;
use std::alloc::{AllocError, Global};
use std::marker::Model;

/// A global of a published module.
#[derive(Drop)]
pub struct ModuleGlobal {
    pub name: Text,
    /// An import binds it to a module.
    pub holds_module: bool,
}

/// The globals of a module, in order. Contracts see their list.
#[derive(Drop)]
pub struct Globals {
    rows: Items<ModuleGlobal>,
    places: NamePlaces,
}

impl Model for Globals {
    ghost use Rattle.std.specs.Prelude.{List, map};
    ghost use Rattle.module_load.specs.declared.globals.ModuleGlobal.{ModuleGlobal as Row};
    ghost use Rattle.module_load.specs.NamePlaces.{ArePlacesOf};

    ghost Value = { List Row };

    ghost view = { λ globals. globals.rows };

    ghost invariant = { λ globals. ArePlacesOf globals.places (map (λ (g : Row). g.name) globals.rows) };
}

impl Globals {
    /// These globals.
    pub fn from_rows(alloc: Global, rows: Items<ModuleGlobal>) -> Result<Globals, AllocError>
        ensures { IfOk result (λ globals. globals ≡ rows) }
    {
        let places = places_of(alloc, rows.as_slice())?;
        Ok(Globals { rows, places })
    }

    pub fn as_slice(&self) -> &[ModuleGlobal]
        ensures { result.now ≡ self.now }
    {
        self.rows.as_slice()
    }

    /// The number of globals.
    pub fn len(&self) -> usize
        ensures { result ≡ length self.now }
    {
        self.rows.len()
    }

    /// The global of that name, by a look-up.
    pub fn named(&self, name: &Text) -> Option<&ModuleGlobal>
        ensures { option_copied result ≡ global_named name.now self.now }
    {
        match self.places.get(name) {
            Some(place) => Some(self.rows.at(place)),
            None => None,
        }
    }
}

/// Where each name first stands.
fn places_of(alloc: Global, rows: &[ModuleGlobal]) -> Result<NamePlaces, AllocError>
    ensures { IfOk result (λ places. ArePlacesOf places (map (λ (g : Row). g.name) rows.now)) }
{
    let mut places = NamePlaces::with_room(alloc, rows.len())?;
    for (place, row) in rows.iter().enumerate() {
        places.note(alloc, &row.name, place)?;
    }
    Ok(places)
}
