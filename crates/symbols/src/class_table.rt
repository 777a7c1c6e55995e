ghost use Rattle.std.specs.Prelude.{◌≡◌, ◌++◌, ◌∷◌, [], IfOk, length};
ghost use Rattle.symbols.specs.BasePlaces.{IsPlaced};
ghost use Rattle.symbols.specs.Classes.{earlier_class};
ghost use Rattle.symbols.specs.ClassViews.{StandsAt, found_at, founds, joined_last, kinds_found, kinds_of};

use crate::class::OwnClass;
use crate::class_list::FoundClasses;
use crate::imported::Imported;
use crate::name_map::NameMap;
use lists::Items;
use py_tree::text::Text;
use std::alloc::{AllocError, Global};
use std::marker::Model;

/// Classes in the order of the text, which are found by their names.
#[derive(Drop)]
pub(crate) struct ClassTable<'a> {
    imported: Imported<'a>,
    own: Items<OwnClass>,
    /// The number of the first class of each name.
    numbers: NameMap<'a, usize>,
}

impl<'a> Model for ClassTable<'a> {
    ghost use Rattle.symbols.specs.ClassViews.{Tabled};
    ghost use Rattle.symbols.specs.ClassTables.{IsClassTable};

    ghost Value = { Tabled };

    ghost view = { λ table. record { outer = table.imported; own = table.own } };

    ghost invariant = { λ table. IsClassTable table.imported table.own table.numbers };
}

impl<'a> ClassTable<'a> {
    pub fn new(alloc: Global, imported: Imported<'a>) -> ClassTable<'a>
        ensures outer { result.outer ≡ imported.entry }
        ensures none { result.own ≡ [] }
    {
        ClassTable {
            imported,
            own: Items::new(alloc),
            numbers: NameMap::new(alloc),
        }
    }

    /// What the module's names are resolved against.
    pub fn imported(&self) -> &Imported<'a>
        ensures { result.now ≡ self.now.outer }
    {
        &self.imported
    }

    /// They, with a class of that name behind them.
    pub fn with(self, name: &'a Text, class: OwnClass) -> Result<ClassTable<'a>, AllocError>
        requires named { class.name ≡ name.now }
        requires placed { IsPlaced (length (kinds_of self.outer.bindings)) (length self.own) class.base }
        ensures outer { IfOk result (λ table. table.outer ≡ self.entry.outer) }
        ensures found { IfOk result (λ table. found_at table ≡ found_at self.entry ++ joined_last self.entry class ∷ []) }
    {
        let ClassTable {
            imported,
            mut own,
            mut numbers,
        } = self;
        numbers.keep(name, own.len())?;
        own.push(class)?;
        Ok(ClassTable {
            imported,
            own,
            numbers,
        })
    }

    /// The number of the first class of that name.
    pub fn number(&self, name: &Text) -> Option<usize>
        ensures { StandsAt (kinds_found (found_at self.now)) (earlier_class (found_at self.now) name.now) result }
    {
        self.numbers.get(name)
    }

    pub fn into_found(self) -> FoundClasses
        ensures { founds result ≡ found_at self.entry }
    {
        let ClassTable {
            imported,
            own,
            numbers: _,
        } = self;
        let home = imported.number();
        FoundClasses {
            home,
            others: imported.into_kinds(),
            own,
        }
    }
}
