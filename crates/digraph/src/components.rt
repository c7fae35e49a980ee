//! Strongly connected components.
ghost use Rattle.std.specs.Prelude.{ℕ, ◌≡◌, ◌<◌, ◌↔◌, All, Contains, IfOk, IsTrue, [], length};
ghost use Rattle.digraph.specs.Gathers.{AnyUnmarked, Gathers};
ghost use Rattle.digraph.specs.Graph.{successors, InRange};
ghost use Rattle.digraph.specs.Transpose.{AreTransposed};
ghost use Rattle.digraph.specs.Sccs.{AreSccs};

use crate::orders::depth_first;
use crate::worklist::Worklist;
use std::alloc::{AllocError, Global};

/// A strongly connected component: nodes that reach each other.
#[derive(Clone, Debug, Drop)]
pub struct Scc<N> {
    /// Its nodes, each once, in an open order.
    pub nodes: Vec<N>,
    /// Whether a path of one edge or more leads from a node of it back to that node.
    pub is_cyclic: bool,
}

/// Takes what is unmarked and leads to `root` over what is unmarked.
fn gather(
    alloc: Global,
    reverse: &[Vec<usize>],
    work: &mut Worklist,
    root: usize,
) -> Result<Vec<usize>, AllocError>
    requires reverse { InRange reverse.now }
    requires len { length work.old.marked.items ≡ length reverse.now }
    requires root { root < length reverse.now }
    requires waits { work.old.waiting.items ≡ [] }
    ensures { IfOk result (λ part. Gathers (successors reverse.now) root work.old work.new part.items) }
{
    let mut part = Vec::new(alloc);
    work.add(root)?;
    while let Some(node) = work.take() {
        part.push(node)?;
        work.add_all(&reverse[node])?;
    }
    Ok(part)
}

/// Whether one of the nodes has no mark.
fn has_unmarked(marked: &[bool], nodes: &[usize]) -> bool
    requires { All (λ n. n < length marked.now) nodes.now }
    ensures { IsTrue result ↔ AnyUnmarked marked.now nodes.now }
{
    for node in nodes {
        if !marked[*node] {
            return true;
        }
    }
    false
}

/// All nodes, by number.
fn all_nodes(alloc: Global, count: usize) -> Result<Vec<usize>, AllocError>
    ensures all { IfOk result (λ nodes. (k : ℕ) → k < count → Contains nodes.items k) }
    ensures within { IfOk result (λ nodes. All (λ n. n < count) nodes.items) }
{
    let mut nodes = Vec::new(alloc);
    for node in 0..count {
        nodes.push(node)?;
    }
    Ok(nodes)
}

/// The strongly connected components, each of whose edges leads within it or to a later one.
///
/// Source: Kosaraju's algorithm, as in Cormen, Leiserson, Rivest, Stein, Introduction to Algorithms, section 20.5, with
/// the two searches exchanged.
///
/// # Errors
/// There may be no memory.
pub fn sccs(
    alloc: Global,
    graph: &[Vec<usize>],
    reverse: &[Vec<usize>],
) -> Result<Vec<Scc<usize>>, AllocError>
    requires graph { InRange graph.now }
    requires reverse { AreTransposed graph.now reverse.now }
    ensures { IfOk result (λ parts. AreSccs (successors graph.now) (λ n. n < length graph.now) parts.items) }
{
    let roots = all_nodes(alloc, graph.len())?;
    let mut orders = depth_first(alloc, graph, &roots)?;
    let mut work = Worklist::new(alloc, graph.len())?;
    let mut parts = Vec::new(alloc);
    'parts: while let Some(root) = orders.post.pop() {
        if !work.marked[root] {
            let is_cyclic = has_unmarked(&work.marked, &reverse[root]);
            let nodes = gather(alloc, reverse, &mut work, root)?;
            parts.push(Scc { nodes, is_cyclic })?;
        }
    }
    Ok(parts)
}
