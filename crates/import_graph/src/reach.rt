ghost use Rattle.std.specs.Prelude.{◌≡◌, ◌||◌, ◌&&◌, ◌==◌, ◌<◌, ◌/◌, ◌≤◌, ℕ, [], Bool, true, IfOk, length, nat_lt, slice_index_or};
ghost use Rattle.std.specs.List.{list_all, list_any};
ghost use Rattle.import_graph.specs.Graph.{is_graph, imports};
ghost use Rattle.import_graph.specs.Closure.{reaches, those};
ghost use Rattle.import_graph.specs.Sets.{is_in, words_for, IsTable, IsPassedOn};

use crate::rows::{DirectImport, GraphRows};
use crate::sets::NumberSet;
use lists::Items;
use std::alloc::{AllocError, Global};

/// For each module the set of those that it reaches.
pub(crate) fn reach_table(alloc: Global, rows: &GraphRows) -> Result<Vec<NumberSet>, AllocError>
    requires { is_graph rows.now ≡ true }
    ensures { IfOk result (λ table. IsTable (reaches rows.now) (length rows.now) table.items) }
{
    let mut table = import_table(alloc, rows)?;
    for by in 0..table.len() {
        let from = table[by].copy(alloc)?;
        pass_on(table.as_mut_slice(), by, &from);
    }
    Ok(table)
}

/// For each module the set of those that it imports.
pub(crate) fn import_table(alloc: Global, rows: &GraphRows) -> Result<Vec<NumberSet>, AllocError>
    requires { is_graph rows.now ≡ true }
    ensures { IfOk result (λ table. IsTable (imports rows.now) (length rows.now) table.items) }
{
    let mut table = Vec::new(alloc);
    for row in rows.as_slice() {
        table.push(imported(alloc, row.as_slice(), rows.len())?)?;
    }
    Ok(table)
}

/// The numbers of the set of a module, ascending.
pub(crate) fn listed(
    alloc: Global,
    table: &[NumberSet],
    at: usize,
) -> Result<Items<u32>, AllocError>
    requires few { length table.now ≤ 4294967295 }
    requires within { at < length table.now }
    requires room { length (slice_index_or table.now at []) ≡ words_for (length table.now) }
    ensures { (test : ℕ → ℕ → Bool) → IsTable test (length table.now) table.now →
        IfOk result (λ made. made ≡ those (test at) (length table.now)) }
{
    table[at].numbers(alloc, table.len() as u32)
}

/// The set of the modules that a row names.
fn imported(alloc: Global, row: &[DirectImport], bound: usize) -> Result<NumberSet, AllocError>
    requires { list_all (λ i. nat_lt i.module bound) row.now ≡ true }
    ensures marks { IfOk result (λ set. (n : ℕ) → is_in set n ≡ list_any (λ i. i.module == n) row.now) }
    ensures room { IfOk result (λ set. length set ≡ words_for bound) }
{
    let mut set = NumberSet::empty(alloc, bound)?;
    for import in row {
        set.insert(import.module as usize);
    }
    Ok(set)
}

/// Joins `from` into each set that has the number `by`.
fn pass_on(table: &mut [NumberSet], by: usize, from: &NumberSet)
    requires room { (m : ℕ) → m < length table.old → length (slice_index_or table.old m []) ≡ length from.now }
    requires within { by / 64 < length from.now }
    ensures { IsPassedOn by from.now table.old table.new }
{
    for at in 0..table.len() {
        pass_to(&mut table[at], by, from);
    }
}

/// Joins `from` into a set that has the number `by`.
fn pass_to(set: &mut NumberSet, by: usize, from: &NumberSet)
    requires room { length set.old ≡ length from.now }
    requires within { by / 64 < length from.now }
    ensures marks { (n : ℕ) → is_in set.new n ≡ is_in set.old n || (is_in set.old by && is_in from.now n) }
    ensures room { length set.new ≡ length set.old }
{
    if set.has(by) {
        set.join(from);
    }
}
