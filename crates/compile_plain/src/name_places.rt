ghost use Rattle.std.specs.Prelude.{◌≡◌, ◌++◌, List, IfOk};
ghost use Rattle.std.specs.List.{flat_map, position_from};
ghost use Rattle.std.specs.Option.{option_or};
ghost use Rattle.std.specs.Str.{bytes_eq};
ghost use Rattle.py_tree.specs.Joined.{statement_of};
ghost use Rattle.py_tree.specs.Syntax.{Text as Name};
ghost use Rattle.symbols.specs.Names.{found};
ghost use Rattle.symbols.specs.Views.{seen};
ghost use Rattle.compile_plain.specs.Tables.{ArePlaces, class_names_at};

use crate::block::next;
use py_tree::statement::{Stmt, StmtKind};
use py_tree::text::Text;
use std::alloc::{AllocError, Global};
use symbols::name_map::NameMap;

/// The place of each of these names.
pub(crate) fn places_of<'a>(
    alloc: Global,
    names: &'a [Text],
) -> Result<NameMap<'a, u32>, AllocError>
    ensures { IfOk result (λ places. ArePlaces names.now places) }
{
    let mut places = NameMap::new(alloc);
    let mut place = 0;
    for name in names {
        places.keep(name, place)?;
        place = next(place)?;
    }
    Ok(places)
}

/// The place of each class's name among those of the classes.
pub(crate) fn class_places<'a>(
    alloc: Global,
    scope: &[&'a Stmt],
) -> Result<NameMap<'a, u32>, AllocError>
    ensures { IfOk result (λ places. ArePlaces (flat_map class_names_at (seen scope.now)) places) }
{
    let mut places = NameMap::new(alloc);
    let mut place = 0;
    for statement in scope {
        place = keep_class(*statement, place, &mut places)?;
    }
    Ok(places)
}

/// Gives the name of a class statement that place, where it has none. Answers the place of the next class.
fn keep_class<'a>(
    statement: &'a Stmt,
    place: u32,
    places: &mut NameMap<'a, u32>,
) -> Result<u32, AllocError>
    ensures { IfOk result (λ behind. (name : Name) (rest : List Name) → option_or (found places.new name) (position_from (bytes_eq name) behind rest) ≡ option_or (found places.old name) (position_from (bytes_eq name) place (class_names_at (statement_of statement.now) ++ rest))) }
{
    match &statement.kind {
        StmtKind::Class(class) => {
            places.keep(&class.get().name, place)?;
            next(place)
        }
        _ => Ok(place),
    }
}
