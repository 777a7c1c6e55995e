ghost use Rattle.std.specs.Prelude.{◌≡◌, ◌+◌, ◌-◌, OnOk};
ghost use Rattle.py_tree.specs.Syntax.{Text as Name};
ghost use Rattle.symbols.specs.Tallies.{count, is_same, times};

use crate::name_map::NameMap;
use py_tree::text::Text;
use std::alloc::{AllocError, Global};

/// How often names stand among some.
#[derive(Drop)]
pub(crate) struct Tally<'a> {
    counts: NameMap<'a, usize>,
}

impl<'a> Tally<'a> {
    pub fn new(alloc: Global) -> Tally<'a>
        ensures { (name : Name) → count result name ≡ 0 }
    {
        Tally {
            counts: NameMap::new(alloc),
        }
    }

    pub fn of(&self, name: &Text) -> usize
        ensures { result ≡ count self.now name.now }
    {
        self.counts.get(name).unwrap_or(0)
    }

    pub fn add(&mut self, names: &'a [Text]) -> Result<(), AllocError>
        ensures { OnOk result ((other : Name) → count self.new other ≡ count self.old other + times other names.now) }
    {
        for name in names {
            self.add_one(name)?;
        }
        Ok(())
    }

    fn add_one(&mut self, name: &'a Text) -> Result<(), AllocError>
        ensures { OnOk result ((other : Name) → count self.new other ≡ count self.old other + is_same other name.now) }
    {
        let more = self.of(name).checked_add(1).ok_or(AllocError)?;
        self.counts.put(name, more)
    }

    pub fn remove(&mut self, names: &'a [Text]) -> Result<(), AllocError>
        ensures { OnOk result ((other : Name) → count self.new other ≡ count self.old other - times other names.now) }
    {
        for name in names {
            self.remove_one(name)?;
        }
        Ok(())
    }

    fn remove_one(&mut self, name: &'a Text) -> Result<(), AllocError>
        ensures { OnOk result ((other : Name) → count self.new other ≡ count self.old other - is_same other name.now) }
    {
        let fewer = self.of(name).saturating_sub(1);
        self.counts.put(name, fewer)
    }
}
