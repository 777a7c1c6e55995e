ghost use Rattle.std.specs.Prelude.{◌≡◌, ◌<◌, ◌≤◌, ◌/◌, ℕ, [], true, cond, Bool, Some, IfOk, length, nat_lt, slice_get};
ghost use Rattle.std.specs.List.{list_all};
ghost use Rattle.import_graph.specs.Graph.{Rows, row_of, is_graph, imports, Reaches, IsRefusedAt, Needs, IsListOf};
ghost use Rattle.import_graph.specs.Closure.{count, reaches, is_cyclic, direct_of, reached_of, need_of, cut, cyclic_line};
ghost use Rattle.import_graph.specs.Sets.{IsTable};
ghost use Rattle.import_graph.specs.Built.{links_of, IsBuilt};

use crate::links::Links;
use crate::reach::{import_table, listed, reach_table};
use crate::rows::{DirectImport, GraphRow, GraphRows};
use crate::sets::NumberSet;
use lists::{ElementAt, Items};
use std::alloc::{AllocError, Global};
use std::marker::Model;

/// The import graph of a folder's modules. Contracts see it as its rows.
#[derive(Drop)]
pub struct Graph {
    rows: GraphRows,
    links: Items<Links>,
}

impl Model for Graph {
    ghost use Rattle.import_graph.specs.Graph.{Rows};

    ghost Value = { Rows };

    ghost use Rattle.import_graph.specs.Built.{IsBuilt};

    ghost view = { λ graph. graph.rows };

    ghost invariant = { λ graph. IsBuilt graph.rows graph.links };
}

impl Graph {
    /// The number of modules.
    pub fn count(&self) -> u32
        ensures { result ≡ count self.now }
    {
        self.rows.len() as u32
    }

    /// What the module imports, in the order of the text.
    pub fn row(&self, module: u32) -> &[DirectImport]
        requires { «module» < count self.now }
        ensures { result.now ≡ row_of self.now «module» }
    {
        self.rows.at(module as usize).as_slice()
    }

    /// The modules that the module imports, each once, in ascending order.
    pub fn direct(&self, module: u32) -> &[u32]
        requires { «module» < count self.now }
        ensures value { result.now ≡ direct_of self.now «module» }
        ensures exact { IsListOf (λ n. imports self.now «module» n ≡ true) result.now }
    {
        self.links(module).direct.as_slice()
    }

    /// The modules that the module reaches, in ascending order.
    pub fn reached(&self, module: u32) -> &[u32]
        requires { «module» < count self.now }
        ensures value { result.now ≡ reached_of self.now «module» }
        ensures exact { IsListOf (Reaches self.now «module») result.now }
    {
        self.links(module).reached.as_slice()
    }

    /// The modules that have to be decided before the module, in ascending order.
    pub fn need(&self, module: u32) -> &[u32]
        requires { «module» < count self.now }
        ensures value { result.now ≡ need_of self.now «module» }
        ensures exact { IsListOf (Needs self.now «module») result.now }
    {
        self.links(module).need.as_slice()
    }

    /// The line at which a cyclic module is refused: that of its first import that leads back to it.
    pub fn cyclic(&self, module: u32) -> Option<u32>
        requires { «module» < count self.now }
        ensures value { result ≡ cyclic_line self.now «module» }
        ensures exact { IsRefusedAt self.now «module» result }
    {
        self.links(module).cyclic
    }

    fn links(&self, module: u32) -> &Links
        requires { «module» < count self.now }
        ensures value { result.now ≡ links_of self.now «module» }
        ensures whole { is_graph self.now ≡ true }
    {
        self.links.at(module as usize)
    }
}

/// Whether each import of these rows names one of them.
pub fn is_graph(rows: &GraphRows) -> bool
    ensures { result ≡ is_graph rows.now }
{
    let count = rows.len();
    rows.as_slice()
        .iter()
        .all(|row| names_modules(row.as_slice(), count))
}

/// Whether each import of a row names a module, where there are so many.
fn names_modules(row: &[DirectImport], count: usize) -> bool
    ensures { result ≡ list_all (λ i. nat_lt i.module count) row.now }
{
    row.iter().all(|import| (import.module as usize) < count)
}

/// The graph of these rows.
pub fn build_graph(alloc: Global, rows: &GraphRows) -> Result<Graph, AllocError>
    requires few { length rows.now ≤ 4294967295 }
    requires modules { is_graph rows.now ≡ true }
    ensures { IfOk result (λ graph. graph ≡ rows.now) }
{
    let imported = import_table(alloc, rows)?;
    let reached = reach_table(alloc, rows)?;
    let cut = cut(alloc, rows, reached.as_slice())?;
    let needed = reach_table(alloc, &cut)?;
    Ok(Graph {
        links: all_links(
            alloc,
            rows,
            imported.as_slice(),
            reached.as_slice(),
            needed.as_slice(),
        )?,
        rows: copy_rows(alloc, rows)?,
    })
}

/// What the tables of imports, reach and need tell of each module.
fn all_links(
    alloc: Global,
    rows: &GraphRows,
    imported: &[NumberSet],
    reached: &[NumberSet],
    needed: &[NumberSet],
) -> Result<Items<Links>, AllocError>
    requires few { length rows.now ≤ 4294967295 }
    requires modules { is_graph rows.now ≡ true }
    requires imported { IsTable (imports rows.now) (length rows.now) imported.now }
    requires reached { IsTable (reaches rows.now) (length rows.now) reached.now }
    requires needed { IsTable (reaches (cut rows.now)) (length rows.now) needed.now }
    ensures { IfOk result (λ links. IsBuilt rows.now links) }
{
    let mut links = Items::new(alloc);
    for module in 0..rows.len() {
        links.push(links_of(alloc, rows, module, imported, reached, needed)?)?;
    }
    Ok(links)
}

/// What the tables of imports, reach and need tell of a module.
fn links_of(
    alloc: Global,
    rows: &GraphRows,
    module: usize,
    imported: &[NumberSet],
    reached: &[NumberSet],
    needed: &[NumberSet],
) -> Result<Links, AllocError>
    requires few { length rows.now ≤ 4294967295 }
    requires modules { is_graph rows.now ≡ true }
    requires within { «module» < length rows.now }
    requires imported { IsTable (imports rows.now) (length rows.now) imported.now }
    requires reached { IsTable (reaches rows.now) (length rows.now) reached.now }
    requires needed { IsTable (reaches (cut rows.now)) (length rows.now) needed.now }
    ensures { IfOk result (λ links. links ≡ links_of rows.now «module») }
{
    Ok(Links {
        direct: listed(alloc, imported, module)?,
        reached: listed(alloc, reached, module)?,
        need: listed(alloc, needed, module)?,
        cyclic: line_back(rows, module, reached),
    })
}

/// The line of the first import that leads back to the module.
fn line_back(rows: &GraphRows, module: usize, reached: &[NumberSet]) -> Option<u32>
    requires modules { is_graph rows.now ≡ true }
    requires within { «module» < length rows.now }
    requires reached { IsTable (reaches rows.now) (length rows.now) reached.now }
    ensures { result ≡ cyclic_line rows.now «module» }
{
    for import in rows.at(module).as_slice() {
        if reached[import.module as usize].has(module) {
            return Some(import.line);
        }
    }
    None
}

/// The rows without those of cyclic modules.
fn cut(alloc: Global, rows: &GraphRows, reached: &[NumberSet]) -> Result<GraphRows, AllocError>
    requires { IsTable (reaches rows.now) (length rows.now) reached.now }
    ensures { IfOk result (λ kept. kept ≡ cut rows.now) }
{
    let mut kept = Items::new(alloc);
    for (module, row) in rows.as_slice().iter().enumerate() {
        kept.push(cut_row(alloc, row, reached[module].has(module))?)?;
    }
    Ok(kept)
}

/// The row, or that of a module that imports nothing.
fn cut_row(alloc: Global, row: &GraphRow, is_cyclic: bool) -> Result<GraphRow, AllocError>
    ensures { IfOk result (λ kept. kept ≡ cond is_cyclic [] row.now) }
{
    if is_cyclic {
        return Ok(Items::new(alloc));
    }
    Items::from_slice(alloc, row.as_slice())
}

/// Equal rows.
fn copy_rows(alloc: Global, rows: &GraphRows) -> Result<GraphRows, AllocError>
    ensures { IfOk result (λ copy. copy ≡ rows.now) }
{
    let mut copy = Items::new(alloc);
    for row in rows.as_slice() {
        copy.push(Items::from_slice(alloc, row.as_slice())?)?;
    }
    Ok(copy)
}
