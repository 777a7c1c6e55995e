ghost use Rattle.std.specs.Prelude.{◌≡◌, ℕ, ◌<◌, List, Bool, Some, IfOk};
ghost use Rattle.import_graph.specs.Closure.{count};
ghost use Rattle.registry_core.specs.Verdicts.{Gathers, IsWorld};
ghost use Rattle.registry_core.specs.declared.sources.Sources.{Sources};

use crate::imports::Imports;
use crate::sources::Sources;
use std::alloc::{AllocError, Global};

/// A way to load modules: what decides one, given the verdicts of those that it needs, and which verdict is right.
pub trait Loads {
    /// What a module is loaded from.
    type Source: Send + Sync + Drop;

    /// What is decided of a module.
    type Verdict: Send + Sync + Drop;

    /// The plain data of a verdict. No value of it is made.
    type Data;

    /// The plain data of a verdict. Verdicts of equal data count as equal.
    ghost verdict_data: { Self.Verdict → Self.Data };

    /// The right data of a module, from the data of the verdicts of all modules that it needs, by their numbers, ascending.
    ghost right: { Self → Sources Self.Source → ℕ → List (ℕ × Self.Data) → Self.Data };

    /// Which verdicts are right, from the same.
    ghost is_right: { Self → Sources Self.Source → ℕ → List (ℕ × Self.Data) → Self.Verdict → Type 0 };

    /// Whether data is that of a refused module.
    ghost is_refused: { Self.Data → Bool };

    /// A right verdict of a module, given right verdicts of all that it needs, in any order.
    fn load(
        &self,
        alloc: Global,
        all: &Sources<Self::Source>,
        module: u32,
        imports: &Imports<Self::Verdict>,
    ) -> Result<Self::Verdict, AllocError>
        requires there { «module» < count all.now.graph }
        requires imports { Gathers right is_right is_refused (Some self.now) (Some all.now) «module» imports.now.rows }
        ensures { IfOk result (λ verdict. IsWorld right is_right is_refused (Some self.now) (Some all.now) «module» verdict) };

    /// Whether the verdict is that of a refused module.
    fn refuses(&self, verdict: &Self::Verdict) -> bool
        ensures { result ≡ is_refused (verdict_data verdict.now) };

    /// A right verdict has the right data.
    ghost right_data: { (loads : Self) (all : Sources Self.Source) (m : ℕ) (list : List (ℕ × Self.Data)) (verdict : Self.Verdict) → is_right loads all m list verdict → verdict_data verdict ≡ right loads all m list };
}
