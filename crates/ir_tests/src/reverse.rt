//! Graphs with their edges turned round.
use crate::asserting::same;
use edge_graphs::{Nothing, graph_of};
use ir_graph::{ControlFlowGraph, HasLabel, ReverseGraph, ReverseNode};
use std::alloc::{AllocError, Global};
use std::test::Fail;

/// The nodes of a graph in order, and the successors and predecessors of all but the sentinel.
fn rows_of<C, G: ControlFlowGraph<C, Node = ReverseNode<usize>>>(
    alloc: Global,
    ctx: &C,
    graph: &G,
) -> Result<String, AllocError>
    requires { G.is_graph graph.now ctx.now }
{
    let mut text = String::new(alloc);
    for node in &graph.nodes(alloc, ctx)? {
        let successors = graph.successors(alloc, ctx, node)?;
        let predecessors = graph.predecessors(alloc, ctx, node)?;
        let line = if node.is_sentinel() {
            format!(in alloc; "{node:?};")?
        } else {
            format!(in alloc; " {node:?} {successors:?} {predecessors:?};")?
        };
        text.push_str(&line)?;
    }
    Ok(text)
}

/// The pre-sentinels of the graph with these edges, in order, and what it is when it is turned round.
fn reversed(alloc: Global, count: usize, edges: &[(usize, usize)]) -> Result<String, AllocError> {
    let graph = graph_of(alloc, count, edges)?;
    let reverse = ReverseGraph::new(alloc, &Nothing {}, &graph)?;
    let mut found = Vec::from_slice(alloc, reverse.pre_sentinels())?;
    found.sort()?;
    let rows = rows_of(alloc, &Nothing {}, &reverse)?;
    format!(in alloc; "{found:?} {rows}")
}

#[test]
fn edges_are_turned_round(rt: HostRuntime) -> Result<(), Fail> {
    let alloc = rt.alloc();
    let text = reversed(alloc, 6, &[(0, 1), (0, 2), (1, 3), (2, 4), (4, 2), (5, 3)])?;
    same(
        &rt,
        text.as_str(),
        "[3, 4] Sentinel; Real(0) [] [Real(1), Real(2)]; Real(1) [Real(0)] [Real(3)]; Real(2) [Real(0), Real(4)] [Real(4)]; Real(3) [Real(1), Real(5)] [Sentinel]; Real(4) [Real(2)] [Real(2), Sentinel]; Real(5) [] [Real(3)];",
    );
    let empty = reversed(alloc, 0, &[])?;
    same(&rt, empty.as_str(), "[] Sentinel;");
    Ok(())
}

#[test]
fn the_sentinel_has_a_label(rt: HostRuntime) -> Result<(), Fail> {
    let sentinel: ReverseNode<usize> = ReverseNode::Sentinel;
    let label = sentinel.label(rt.alloc(), &Nothing {})?;
    same(&rt, label.as_str(), "sentinel");
    same(&rt, sentinel.into_real(), None);
    same(&rt, ReverseNode::Real(3).as_real(), Some(&3));
    Ok(())
}
