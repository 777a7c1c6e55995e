ghost use Rattle.std.specs.Prelude.{◌≡◌, IfOk};
ghost use Rattle.std.specs.Arc.{arc_value};
ghost use Rattle.import_graph.specs.Closure.{count};

use import_graph::graph::{build_graph, is_graph};
use import_graph::rows::{DirectImport, GraphRow, GraphRows};
use lists::{ElementAt, Items};
use registry_core::imports::Imports;
use registry_core::loads::Loads;
use registry_core::sources::Sources;
use std::alloc::{AllocError, Global};
use std::process::Abort;
use std::sync::Arc;

/// A module is bad where its source says so, and bad modules are refused. For one module, if any, it finds no memory.
#[derive(Drop)]
pub(crate) struct Flags {
    pub(crate) without_memory: Option<u32>,
}

impl Loads for Flags {
    type Source = bool;

    type Verdict = bool;

    type Data = bool;

    ghost use Rattle.std.specs.Prelude.{◌≡◌, false, slice_index_or};

    ghost verdict_data = { λ verdict. verdict };

    ghost right = { λ loads all m list. slice_index_or all.list m false };

    ghost is_right = { λ loads all m list verdict. verdict ≡ slice_index_or all.list m false };

    ghost is_refused = { λ verdict. verdict };

    ghost right_data = { λ loads all m list verdict h. h };

    fn load(
        &self,
        _alloc: Global,
        all: &Sources<bool>,
        module: u32,
        _imports: &Imports<bool>,
    ) -> Result<bool, AllocError> {
        if self.without_memory == Some(module) {
            return Err(AllocError);
        }
        Ok(*all.list.at(module as usize))
    }

    fn refuses(&self, verdict: &bool) -> bool {
        *verdict
    }
}

/// The sources of two modules, of which the first is bad and imports the second where it is told to.
pub(crate) fn two_sources(
    rt: &impl Abort,
    alloc: Global,
    imports: bool,
) -> Result<Arc<Sources<bool>>, AllocError>
    ensures { IfOk result (λ all. count (arc_value all).graph ≡ 2) }
{
    let mut row: GraphRow = Items::new(alloc);
    if imports {
        row.push(DirectImport { line: 1, module: 1 })?;
    }
    let mut rows: GraphRows = Items::new(alloc);
    rows.push(row)?;
    rows.push(Items::new(alloc))?;
    let list = Items::from_slice(alloc, &[true, false])?;
    assert!(rt; rows.len() <= 4294967295);
    assert!(rt; list.len() == rows.len());
    assert!(rt; is_graph(&rows));
    let graph = build_graph(alloc, &rows)?;
    assert!(rt; graph.count() == 2);
    Ok(Arc::new(alloc, Sources { list, graph })?)
}
