ghost use Rattle.std.specs.Prelude.{◌≡◌, ◌<◌, ◌==◌, ℕ, None, if◌then◌else◌, IfOk, length, slice_get, Some};
ghost use Rattle.std.specs.Option.{option_or};
ghost use Rattle.registry_core.specs.declared.imports.Import.{Import as Row};
ghost use Rattle.module_load.specs.Folders.{names_of};
ghost use Rattle.module_load.specs.NamePlaces.{AreNumbersOf};
ghost use Rattle.module_load.specs.Needs.{IsTableOf, in_table};

use crate::known::Known;
use crate::source::Source;
use crate::verdict::Verdict;
use py_tree::text::Text;
use registry_core::imports::Imports;
use registry_core::sources::Sources;
use std::alloc::{AllocError, Global};
use symbols::name_map::NameMap;

/// What is decided of the modules that a module needs, by their names.
#[derive(Clone, Copy)]
pub(crate) struct Needed<'a, 'n> {
    pub(crate) all: &'a Sources<Source>,
    pub(crate) imports: &'a Imports<Verdict>,
    /// The numbers of the modules, by their names.
    pub(crate) numbers: &'a NameMap<'n, usize>,
    /// The verdicts, by the numbers of their modules.
    pub(crate) table: &'a [Option<&'a Verdict>],
    ghost named: { AreNumbersOf numbers.now (names_of all.now.list) },
    ghost numbered: { IsTableOf (length all.now.list) imports.now.rows table.now },
}

impl<'a, 'n> Known for Needed<'a, 'n> {
    ghost use Rattle.registry_core.specs.Verdicts.{data_list};
    ghost use Rattle.module_load.specs.Folders.{names_of};
    ghost use Rattle.module_load.specs.Right.{known_in};

    ghost decisions = { λ needed. known_in (names_of needed.all.now.list) (data_list (λ verdict. verdict) needed.imports.now.rows) };

    fn verdict(&self, name: &Text) -> Option<&Verdict> {
        match self.numbers.get(name) {
            Some(number) => self.table[number],
            None => None,
        }
    }
}

/// What is decided of the modules that a module needs, where it needs none.
#[derive(Clone, Copy)]
pub(crate) struct NoneNeeded<'a> {
    pub(crate) all: &'a Sources<Source>,
}

impl<'a> Known for NoneNeeded<'a> {
    ghost use Rattle.std.specs.Prelude.{[]};
    ghost use Rattle.module_load.specs.Folders.{names_of};
    ghost use Rattle.module_load.specs.Right.{known_in};

    ghost decisions = { λ needed. known_in (names_of needed.all.now.list) [] };

    fn verdict(&self, _name: &Text) -> Option<&Verdict> {
        None
    }
}

/// The verdicts by the numbers of their modules, where there are so many.
pub(crate) fn by_number(
    alloc: Global,
    imports: &Imports<Verdict>,
    count: u32,
) -> Result<Vec<Option<&Verdict>>, AllocError>
    requires { (k : ℕ) (row : Row Verdict) → slice_get imports.now.rows k ≡ Some row → row.module < count }
    ensures { IfOk result (λ table. IsTableOf count imports.now.rows table.items) }
{
    let mut table = vec![in alloc; None; count as usize]?;
    for row in imports.as_slice() {
        keep(table.as_mut_slice(), row.module as usize, &*row.verdict);
    }
    Ok(table)
}

/// Puts the verdict at the place, where none is.
fn keep<'a>(table: &mut [Option<&'a Verdict>], place: usize, verdict: &'a Verdict)
    requires { place < length table.old }
    ensures { (n : ℕ) → in_table table.new (Some n) ≡ option_or (in_table table.old (Some n)) (if place == n then Some verdict.now else None) }
{
    if table[place].is_none() {
        table[place] = Some(verdict);
    }
}
