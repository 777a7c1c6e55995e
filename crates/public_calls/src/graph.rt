ghost use Rattle.std.specs.Prelude.{◌≡◌, ◌<◌, IfOk};
ghost use Rattle.import_graph.specs.Closure.{count};

use import_graph::graph::{Graph, build_graph, is_graph};
use import_graph::rows::{DirectImport, GraphRow, GraphRows};
use lists::Items;
use std::alloc::{AllocError, AllocGlobal, Global};
use std::process::Abort;
use std::test::Fail;

/// What one module imports, by line and number, and what the graph tells of it.
#[derive(Clone, Copy, Drop)]
struct Case {
    row: &'static [(u32, u32)],
    direct: &'static [u32],
    reached: &'static [u32],
    need: &'static [u32],
    cyclic: Option<u32>,
}

/// A chain into a cycle with a module behind it.
const CASES: [Case; 5] = [
    Case {
        row: &[(2, 1)],
        direct: &[1],
        reached: &[1, 2, 3, 4],
        need: &[1, 2],
        cyclic: None,
    },
    Case {
        row: &[(2, 2)],
        direct: &[2],
        reached: &[2, 3, 4],
        need: &[2],
        cyclic: None,
    },
    Case {
        row: &[(2, 3)],
        direct: &[3],
        reached: &[2, 3, 4],
        need: &[],
        cyclic: Some(2),
    },
    Case {
        row: &[(2, 4), (5, 2), (6, 2)],
        direct: &[2, 4],
        reached: &[2, 3, 4],
        need: &[],
        cyclic: Some(5),
    },
    Case {
        row: &[],
        direct: &[],
        reached: &[],
        need: &[],
        cyclic: None,
    },
];

/// Takes what threads may share.
fn share<T: Send + Sync>(_shared: &T) {}

fn rows_of(alloc: Global, cases: &[Case]) -> Result<GraphRows, AllocError> {
    let mut rows = Items::new(alloc);
    for case in cases {
        let mut row: GraphRow = Items::new(alloc);
        for (line, module) in case.row {
            row.push(DirectImport {
                line: *line,
                module: *module,
            })?;
        }
        rows.push(row)?;
    }
    Ok(rows)
}

fn graph_of(rt: &impl Abort, alloc: Global, rows: &GraphRows) -> Result<Graph, AllocError>
    ensures { IfOk result (λ graph. graph ≡ rows.now) }
{
    assert!(rt; rows.len() <= 4294967295);
    assert!(rt; is_graph(rows));
    build_graph(alloc, rows)
}

/// Compares what the graph tells of a module.
fn assert_told(rt: &(impl Abort + AllocGlobal), graph: &Graph, module: u32, case: &Case)
    requires { «module» < count graph.now }
{
    assert_eq!(rt; graph.row(module).len(), case.row.len(), "{module}");
    assert_eq!(rt; graph.direct(module), case.direct, "{module}");
    assert_eq!(rt; graph.reached(module), case.reached, "{module}");
    assert_eq!(rt; graph.need(module), case.need, "{module}");
    assert_eq!(rt; graph.cyclic(module), case.cyclic, "{module}");
}

#[test]
fn a_chain_leads_into_a_cycle(rt: HostRuntime) -> Result<(), Fail> {
    let alloc = rt.alloc();
    let graph = graph_of(&rt, alloc, &rows_of(alloc, CASES.as_slice())?)?;
    share(&graph);
    assert!(rt; graph.count() as usize == CASES.len());
    for module in 0..graph.count() {
        assert_told(&rt, &graph, module, &CASES[module as usize]);
    }
    Ok(())
}
