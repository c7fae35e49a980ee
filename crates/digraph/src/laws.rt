//! Laws of depth-first search.
ghost use Rattle.std.specs.Prelude.{ℕ, ◌≡◌, List};
ghost use Rattle.digraph.specs.Visits.{Traversal, Visits};

/// Visiting some nodes leads to one traversal alone, so that what a search answers is determined by the graph.
pub fn one_order()
    ensures { (next : ℕ → List ℕ) (o p q : Traversal ℕ) (ns : List ℕ) → Visits next o ns p → Visits next o ns q
        → p ≡ q }
{}
