ghost use Rattle.std.specs.Prelude.{◌≡◌, ◌≤◌, ◌<◌, ◌++◌, [], IfOk, OnOk, length, map};
ghost use Rattle.std.specs.List.{cons_option, filter_map, position};
ghost use Rattle.std.specs.Str.{bytes_eq};
ghost use Rattle.module_load.specs.EveryFolder.{EveryFolder};
ghost use Rattle.py_tree.specs.Joined.{module_of, statement_of};
ghost use Rattle.py_tree.specs.declared.statement.Import.{Import as Imported};
ghost use Rattle.import_graph.specs.Imports.{import_rows, rows_of};
ghost use Rattle.module_load.specs.Folders.{AreSources, IsSources, OneFolder, direct_import, direct_imports, file_of, graph_of, names_of};
ghost use Rattle.module_load.specs.NamePlaces.{AreNumbersOf};
ghost use Rattle.module_load.specs.Sources.{state_of};

use crate::import_faults::top_imports;
use crate::preparing::prepare;
use crate::source::{Source, SourceState};
use import_graph::graph::{Graph, build_graph};
use import_graph::rows::{DirectImport, GraphRow};
use lists::Items;
use py_tree::statement::{Import, Module, Stmt, StmtKind};
use py_tree::text::Text;
use registry_core::sources::Sources;
use std::alloc::{AllocError, Global};
use symbols::name_map::NameMap;

/// The file of a module.
#[derive(Drop)]
pub struct ModuleFile {
    /// The name of the module.
    pub name: String,
    pub bytes: Vec<u8>,
}

/// What each module of a folder is by itself, and which it imports, from their files in the order of their numbers. A name that
/// stands twice is that of the first. In time linear in the bytes and in the imports, but for what the graph takes.
pub fn sources_of(alloc: Global, files: &[ModuleFile]) -> Result<Sources<Source>, AllocError>
    requires { length files.now ≤ 4294967295 }
    ensures { IfOk result (λ all. IsSources (map file_of files.now) all) }
{
    let list = prepare_all(alloc, files)?;
    let graph = graph_of(alloc, list.as_slice())?;
    Ok(Sources { list, graph })
}

/// The same files have the same names, states and imports.
pub fn one_folder()
    ensures { OneFolder }
{}

/// The other half of it: files have sources.
pub fn every_folder()
    ensures { EveryFolder }
{}

/// What each file is by itself.
fn prepare_all(alloc: Global, files: &[ModuleFile]) -> Result<Items<Source>, AllocError>
    ensures { IfOk result (λ list. AreSources (map file_of files.now) list) }
{
    let mut list = Items::new(alloc);
    for file in files {
        list.push(prepare(alloc, file.name.as_str(), &file.bytes)?)?;
    }
    Ok(list)
}

/// Which of these modules import which.
fn graph_of(alloc: Global, list: &[Source]) -> Result<Graph, AllocError>
    requires { length list.now ≤ 4294967295 }
    ensures { IfOk result (λ graph. graph ≡ graph_of list.now) }
{
    let numbers = numbers_of(alloc, list)?;
    let mut rows = Items::new(alloc);
    for source in list {
        rows.push(direct_imports(alloc, list, &numbers, source)?)?;
    }
    build_graph(alloc, &rows)
}

/// The number of each name: that of the first module that has it.
pub(crate) fn numbers_of(alloc: Global, list: &[Source]) -> Result<NameMap<'_, usize>, AllocError>
    ensures { IfOk result (λ numbers. AreNumbersOf numbers (names_of list.now)) }
{
    let mut numbers = NameMap::new(alloc);
    for (number, source) in list.iter().enumerate() {
        numbers.keep(&source.name, number)?;
    }
    Ok(numbers)
}

/// Which of these modules the source imports, in the order of its text.
fn direct_imports(
    alloc: Global,
    list: &[Source],
    numbers: &NameMap<'_, usize>,
    source: &Source,
) -> Result<GraphRow, AllocError>
    requires few { length list.now ≤ 4294967295 }
    requires numbers { AreNumbersOf numbers.now (names_of list.now) }
    ensures { IfOk result (λ row. row ≡ direct_imports (names_of list.now) (state_of source.now.state)) }
{
    match &source.state {
        SourceState::Tree(tree) => tree_imports(alloc, list, numbers, tree),
        _ => Ok(Items::new(alloc)),
    }
}

/// The imports of a module's top part that name one of these modules.
fn tree_imports(
    alloc: Global,
    list: &[Source],
    numbers: &NameMap<'_, usize>,
    tree: &Module,
) -> Result<GraphRow, AllocError>
    requires few { length list.now ≤ 4294967295 }
    requires numbers { AreNumbersOf numbers.now (names_of list.now) }
    ensures { IfOk result (λ row. row ≡ filter_map (direct_import (names_of list.now)) (import_rows (module_of tree.now))) }
{
    let mut direct = Items::new(alloc);
    for statement in top_imports(tree.body.as_slice()) {
        put_statement(list, numbers, statement, &mut direct)?;
    }
    Ok(direct)
}

/// Puts those that a statement names.
fn put_statement(
    list: &[Source],
    numbers: &NameMap<'_, usize>,
    statement: &Stmt,
    direct: &mut GraphRow,
) -> Result<(), AllocError>
    requires few { length list.now ≤ 4294967295 }
    requires numbers { AreNumbersOf numbers.now (names_of list.now) }
    ensures { OnOk result (direct.new ≡ direct.old ++ filter_map (direct_import (names_of list.now)) (rows_of (statement_of statement.now))) }
{
    match &statement.kind {
        StmtKind::Import(names) => {
            put_each(list, numbers, statement.line, names.as_slice(), direct)
        }
        StmtKind::From { module, .. } => put_named(list, numbers, statement.line, module, direct),
        _ => Ok(()),
    }
}

/// Puts those that an `import` on that line names.
fn put_each(
    list: &[Source],
    numbers: &NameMap<'_, usize>,
    line: u32,
    names: &[Import],
    direct: &mut GraphRow,
) -> Result<(), AllocError>
    requires few { length list.now ≤ 4294967295 }
    requires numbers { AreNumbersOf numbers.now (names_of list.now) }
    ensures { OnOk result (direct.new ≡ direct.old ++ filter_map (direct_import (names_of list.now)) (map (λ (i : Imported). record { line = line; «module» = i.name; names = [] }) names.now)) }
{
    for import in names {
        put_named(list, numbers, line, &import.name, direct)?;
    }
    Ok(())
}

/// Puts the module of that name, where it is one of these.
fn put_named(
    list: &[Source],
    numbers: &NameMap<'_, usize>,
    line: u32,
    name: &Text,
    direct: &mut GraphRow,
) -> Result<(), AllocError>
    requires few { length list.now ≤ 4294967295 }
    requires numbers { AreNumbersOf numbers.now (names_of list.now) }
    ensures { OnOk result (direct.new ≡ direct.old ++ cons_option (direct_import (names_of list.now) (record { line = line; «module» = name.now; names = [] })) []) }
{
    if let Some(module) = number_of(list, numbers, name) {
        direct.push(DirectImport { line, module })?;
    }
    Ok(())
}

/// The number of the first of these modules that has the name.
fn number_of(list: &[Source], numbers: &NameMap<'_, usize>, name: &Text) -> Option<u32>
    requires few { length list.now ≤ 4294967295 }
    requires numbers { AreNumbersOf numbers.now (names_of list.now) }
    ensures { result ≡ position (bytes_eq name.now) (names_of list.now) }
{
    match numbers.get(name) {
        Some(number) => Some(number as u32),
        None => None,
    }
}
