ghost use Rattle.std.specs.Prelude.{◌≡◌, length};
ghost use Rattle.import_graph.specs.Closure.{count};

use import_graph::graph::Graph;
use lists::Items;

/// What is to be loaded: for each module its source, and which modules import which.
#[derive(Drop)]
pub struct Sources<S> {
    /// The sources of the modules, by their numbers.
    pub list: Items<S>,
    pub graph: Graph,
    /// Each module of the graph has one source.
    pub ghost each: { length list ≡ count graph },
}
