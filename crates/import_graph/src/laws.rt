ghost use Rattle.std.specs.Prelude.{◌≡◌, ◌↔◌, ◌<◌, ℕ, List, Bool, true};
ghost use Rattle.import_graph.specs.Graph.{Rows, is_graph, imports, Reaches, IsCyclic, IsRefusedAt, Needs, IsListOf};
ghost use Rattle.import_graph.specs.Closure.{count, direct_of, reached_of, need_of, is_cyclic, cyclic_line};
ghost use Rattle.import_graph.specs.Needs.{HasNeeds, DecidesNeeds};
ghost use Rattle.import_graph.specs.World.{rules_over, Fits, world};

/// The lists of a graph are those of the modules that are imported, reached and needed.
pub fn lists_by_chains()
    ensures direct { (rows : Rows) → is_graph rows ≡ true → (m : ℕ) → IsListOf (λ n. imports rows m n ≡ true) (direct_of rows m) }
    ensures reached { (rows : Rows) → is_graph rows ≡ true → (m : ℕ) → IsListOf (Reaches rows m) (reached_of rows m) }
    ensures need { (rows : Rows) → is_graph rows ≡ true → (m : ℕ) → IsListOf (Needs rows m) (need_of rows m) }
{}

/// A module is cyclic by the test exactly where it reaches itself, and exactly then it has a line: that of its first import
/// that leads back.
pub fn cycles_by_chains()
    ensures test { (rows : Rows) (m : ℕ) → (is_cyclic rows m ≡ true) ↔ IsCyclic rows m }
    ensures line { (rows : Rows) (m : ℕ) → IsRefusedAt rows m (cyclic_line rows m) }
{}

/// The laws of a need hold of every graph.
pub fn needs_of_every_graph()
    ensures { (rows : Rows) → HasNeeds rows }
{}

/// A need is decided wherever the direct imports are, if each decided module was decided after its own direct imports.
pub fn needs_are_decided()
    ensures { (rows : Rows) → DecidesNeeds (direct_of rows) (need_of rows) (is_cyclic rows) }
{}

/// Over every graph, and for all rules that give a module its verdict by the verdicts of its need, one assignment fits all
/// modules, and no other.
pub fn one_world<D>()
    ensures fits { (rows : Rows) (right : ℕ → List (ℕ × D) → D) (is_refused : D → Bool) →
        let rules = rules_over rows right is_refused in Fits rules (count rows) (world rules) }
    ensures one { (rows : Rows) (right : ℕ → List (ℕ × D) → D) (is_refused : D → Bool) (verdict : ℕ → D) →
        let rules = rules_over rows right is_refused in
        Fits rules (count rows) verdict → (m : ℕ) → m < count rows → verdict m ≡ world rules m }
{}
