//! Depth-first orders.
ghost use Rattle.std.specs.Prelude.{◌≡◌, ℕ, ◌<◌, [], All, IfOk, OnOk, length};
ghost use Rattle.digraph.specs.Graph.{successors, InRange};
ghost use Rattle.digraph.specs.Orders.{order_of, rows_of, AddsComponent};
ghost use Rattle.digraph.specs.Searches.{IsNewSearch, IsSearch, orders};
ghost use Rattle.digraph.specs.Visits.{empty, Visits, IsPostOrderApart};

use crate::search::Search;
use std::alloc::{AllocError, Global};

/// The nodes that a depth-first search meets.
#[derive(Drop)]
pub struct Orders {
    /// In the order in which they are first seen.
    pub pre: Vec<usize>,
    /// In the order in which they are left.
    pub post: Vec<usize>,
}

/// Searches from each root in turn, depth first, the successors of a node in their order.
///
/// Source: Cormen, Leiserson, Rivest, Stein, Introduction to Algorithms, section 20.3.
///
/// # Errors
/// There may be no memory.
pub fn depth_first(
    alloc: Global,
    graph: &[Vec<usize>],
    roots: &[usize],
) -> Result<Orders, AllocError>
    requires graph { InRange graph.now }
    requires roots { All (λ n. n < length graph.now) roots.now }
    ensures { IfOk result (λ o. Visits (successors graph.now) empty roots.now (order_of o)) }
{
    let mut search = Search::new(alloc, graph.len())?;
    for root in roots {
        search.visit(graph, *root)?;
    }
    Ok(search.into_orders())
}

/// Visits a root. If it begins a component, this is put behind the others.
fn visit_root(
    search: &mut Search,
    parts: &mut Vec<Vec<usize>>,
    alloc: Global,
    graph: &[Vec<usize>],
    root: usize,
) -> Result<(), AllocError>
    requires graph { InRange graph.now }
    requires search { IsSearch graph.now search.old }
    requires idle { search.old.path.items ≡ [] }
    requires root { root < length graph.now }
    ensures visited { OnOk result (AddsComponent (successors graph.now) (orders search.old) (orders search.new)
        (rows_of parts.old.items) (rows_of parts.new.items) root) }
    ensures search { OnOk result (IsSearch graph.now search.new) }
    ensures idle { OnOk result (search.new.path.items ≡ []) }
{
    if !search.has_seen(root) {
        parts.push(search.visit_apart(alloc, graph, root)?)?;
    }
    Ok(())
}

/// Visits the roots by a search that has seen nothing: the nodes in the order in which it leaves them, apart for each
/// root that none before it reached.
fn visit_roots(
    search: &mut Search,
    alloc: Global,
    graph: &[Vec<usize>],
    roots: &[usize],
) -> Result<Vec<Vec<usize>>, AllocError>
    requires graph { InRange graph.now }
    requires search { IsNewSearch search.old (length graph.now) }
    requires roots { All (λ n. n < length graph.now) roots.now }
    ensures { IfOk result (λ parts. IsPostOrderApart (successors graph.now) roots.now (rows_of parts.items)) }
{
    let mut parts = Vec::new(alloc);
    for root in roots {
        visit_root(search, &mut parts, alloc, graph, *root)?;
    }
    Ok(parts)
}

/// The nodes in the order in which the same search leaves them, apart for each root that none before it reached.
///
/// # Errors
/// There may be no memory.
pub fn post_order_apart(
    alloc: Global,
    graph: &[Vec<usize>],
    roots: &[usize],
) -> Result<Vec<Vec<usize>>, AllocError>
    requires graph { InRange graph.now }
    requires roots { All (λ n. n < length graph.now) roots.now }
    ensures { IfOk result (λ parts. IsPostOrderApart (successors graph.now) roots.now (rows_of parts.items)) }
{
    let mut search = Search::new(alloc, graph.len())?;
    visit_roots(&mut search, alloc, graph, roots)
}
