ghost use Rattle.std.specs.Prelude.{◌≡◌, ◌==◌, ◌<◌, ◌++◌, ℕ, None, Some, IfOk, OnOk, if◌then◌else◌, length, map, slice_get};
ghost use Rattle.std.specs.List.{flat_map};
ghost use Rattle.std.specs.Option.{option_or};
ghost use Rattle.std.specs.Str.{bytes_eq};
ghost use Rattle.py_tree.specs.Joined.{class_of};
ghost use Rattle.py_tree.specs.Syntax.{Text as Name};
ghost use Rattle.symbols.specs.Names.{found};
ghost use Rattle.symbols.specs.Views.{seen};
ghost use Rattle.py_meaning.specs.Definitions.{is_function};
ghost use Rattle.py_meaning.specs.Modules as spec;
ghost use Rattle.py_meaning.specs.Modules.{functions_from, method_in};
ghost use Rattle.compile_plain.specs.Tables.{AreFunctions, AreMethods, found_at, function_in, kept_at};

use crate::block::next;
use py_tree::statement::{ClassDef, Function, Stmt, StmtKind};
use py_tree::text::Text;
use std::alloc::{AllocError, Global};
use symbols::name_map::NameMap;
use symbols::scope::scope_of;

/// A function with the number of the class in whose body it stands.
#[derive(Clone, Copy)]
pub(crate) struct FunctionIn<'a> {
    pub function: &'a Function,
    pub class: Option<u32>,
}

/// The functions of a module by their numbers.
pub(crate) fn functions_of<'a>(
    alloc: Global,
    scope: &[&'a Stmt],
) -> Result<Vec<FunctionIn<'a>>, AllocError>
    ensures { IfOk result (λ all. map function_in all.items ≡ functions_from 0 (seen scope.now)) }
{
    let mut all = Vec::new(alloc);
    let mut classes = 0;
    for statement in scope {
        match &statement.kind {
            StmtKind::Def(function) => all.push(FunctionIn {
                function: function.get(),
                class: None,
            })?,
            StmtKind::Class(class) => {
                put_methods(alloc, class.get(), classes, &mut all)?;
                classes = next(classes)?;
            }
            _ => {}
        }
    }
    Ok(all)
}

fn put_methods<'a>(
    alloc: Global,
    class: &'a ClassDef,
    number: u32,
    all: &mut Vec<FunctionIn<'a>>,
) -> Result<(), AllocError>
    ensures { OnOk result (map function_in all.new.items ≡ map function_in all.old.items ++ spec.methods_in number (class_of class.now)) }
{
    let scope = scope_of(alloc, class.body.as_slice())?;
    put_defs(scope.as_slice(), number, all)
}

fn put_defs<'a>(
    scope: &[&'a Stmt],
    number: u32,
    all: &mut Vec<FunctionIn<'a>>,
) -> Result<(), AllocError>
    ensures { OnOk result (map function_in all.new.items ≡ map function_in all.old.items ++ flat_map (method_in number) (seen scope.now)) }
{
    for statement in scope {
        if let StmtKind::Def(function) = &statement.kind {
            all.push(FunctionIn {
                function: function.get(),
                class: Some(number),
            })?;
        }
    }
    Ok(())
}

/// Where the first def of each name stands among the functions.
pub(crate) fn def_places<'a>(
    alloc: Global,
    functions: &[FunctionIn<'a>],
) -> Result<NameMap<'a, u32>, AllocError>
    ensures { IfOk result (λ places. AreFunctions None (map function_in functions.now) (found places)) }
{
    let mut places = NameMap::new(alloc);
    let mut number = 0;
    for known in functions {
        keep_def(*known, number, &mut places)?;
        number = next(number)?;
    }
    Ok(places)
}

fn keep_def<'a>(
    known: FunctionIn<'a>,
    number: u32,
    places: &mut NameMap<'a, u32>,
) -> Result<(), AllocError>
    ensures { OnOk result ((name : Name) → found places.new name ≡ option_or (found places.old name) (if is_function None name (function_in known.entry) then Some number else None)) }
{
    match known.class {
        None => places.keep(&known.function.name, number),
        Some(_) => Ok(()),
    }
}

/// For each class, where its first method of each name stands among the functions.
pub(crate) fn method_places<'a>(
    alloc: Global,
    functions: &[FunctionIn<'a>],
) -> Result<Vec<NameMap<'a, u32>>, AllocError>
    ensures { IfOk result (λ tables. AreMethods (map function_in functions.now) tables.items) }
{
    let mut tables = Vec::new(alloc);
    let mut number = 0;
    for known in functions {
        keep_method(alloc, *known, number, &mut tables)?;
        number = next(number)?;
    }
    Ok(tables)
}

fn keep_method<'a>(
    alloc: Global,
    known: FunctionIn<'a>,
    number: u32,
    tables: &mut Vec<NameMap<'a, u32>>,
) -> Result<(), AllocError>
    ensures { OnOk result ((n : ℕ) (name : Name) → found_at (slice_get tables.new.items n) name ≡ option_or (found_at (slice_get tables.old.items n) name) (if is_function (Some n) name (function_in known.entry) then Some number else None)) }
{
    match known.class {
        None => Ok(()),
        Some(class) => {
            fill(alloc, tables, class as usize)?;
            keep_in(tables, class as usize, &known.function.name, number)
        }
    }
}

/// Puts empty tables behind these, until there is one at the place.
fn fill<'a>(
    alloc: Global,
    tables: &mut Vec<NameMap<'a, u32>>,
    place: usize,
) -> Result<(), AllocError>
    ensures found { OnOk result ((n : ℕ) (name : Name) → found_at (slice_get tables.new.items n) name ≡ found_at (slice_get tables.old.items n) name) }
    ensures enough { OnOk result (place < length tables.new.items) }
{
    while tables.len() <= place {
        tables.push(NameMap::new(alloc))?;
    }
    Ok(())
}

/// Gives a name its place in a table, where it has none there.
fn keep_in<'a>(
    tables: &mut [NameMap<'a, u32>],
    place: usize,
    name: &'a Text,
    number: u32,
) -> Result<(), AllocError>
    requires { place < length tables.old }
    ensures { OnOk result ((n : ℕ) (other : Name) → found_at (slice_get tables.new n) other ≡ kept_at (n == place) (found_at (slice_get tables.old n) other) (bytes_eq other name.now) number) }
{
    tables[place].keep(name, number)
}
