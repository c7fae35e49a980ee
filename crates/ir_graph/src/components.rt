//! Strongly connected components.
ghost use Rattle.std.specs.Prelude.{ℕ, ◌<◌, Contains, IfOk, length};
ghost use Rattle.digraph.specs.Sccs.{AreSccs, IsInPart};
ghost use Rattle.ir_graph.specs.Graphs.{AreNamedSccs};

use crate::ControlFlowGraph;
use crate::numbering::{nodes_at, number};
use digraph::{Scc, sccs, transposed};
use std::alloc::{AllocError, Global};

/// The components whose nodes have some numbers.
fn sccs_at<N: Copy + Drop>(
    alloc: Global,
    nodes: &[N],
    parts: &[Scc<usize>],
) -> Result<Vec<Scc<N>>, AllocError>
    requires { (k n : ℕ) → IsInPart parts.now k n → n < length nodes.now }
    ensures { IfOk result (λ named. AreNamedSccs nodes.now parts.now named.items) }
{
    let mut named = Vec::new(alloc);
    for part in parts {
        let row = nodes_at(alloc, nodes, &part.nodes)?;
        named.push(Scc {
            nodes: row,
            is_cyclic: part.is_cyclic,
        })?;
    }
    Ok(named)
}

/// The strongly connected components: each node is in one of them, with all that it reaches and that reach it, and an edge
/// leads within one or to a later one. The order of the nodes in a component is open.
///
/// Source: the algorithm of Kosaraju and Sharir, on the numbers of the nodes. In time linear in nodes and edges.
///
/// # Errors
/// There may be no memory.
pub fn sccs_in_topological_order<C, G: ControlFlowGraph<C>>(
    alloc: Global,
    ctx: &C,
    graph: &G,
) -> Result<Vec<Scc<G::Node>>, AllocError>
    requires { G.is_graph graph.now ctx.now }
    ensures { IfOk result (λ parts. AreSccs (G.successors_of graph.now ctx.now)
        (Contains (G.nodes_of graph.now ctx.now)) parts.items) }
{
    let numbering = number(alloc, ctx, graph)?;
    let reverse = transposed(alloc, &numbering.rows)?;
    let parts = sccs(alloc, &numbering.rows, &reverse)?;
    sccs_at(alloc, &numbering.nodes, &parts)
}
