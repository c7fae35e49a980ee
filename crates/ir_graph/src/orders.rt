//! Depth-first orders.
ghost use Rattle.std.specs.Prelude.{◌≡◌, IfOk, map, reverse};
ghost use Rattle.digraph.specs.Visits.{joined, IsPostOrder, IsPostOrderApart};
ghost use Rattle.ir_graph.specs.Graphs.{AreNamedParts};
ghost use Rattle.ir_graph.specs.Orders.{lists_of, IsTopologicalOrder, IsTopologicalOrderApart};

use crate::ControlFlowGraph;
use crate::numbering::{nodes_at, number};
use digraph::{depth_first, post_order_apart};
use std::alloc::{AllocError, Global};

/// The nodes in the order in which a depth-first search from each node in turn leaves them: a node after all that are
/// first seen from it, the successors of a node in their order.
///
/// Source: Cormen, Leiserson, Rivest, Stein, Introduction to Algorithms, section 20.3. In time linear in nodes and edges.
///
/// # Errors
/// There may be no memory.
pub fn post_order<C, G: ControlFlowGraph<C>>(
    alloc: Global,
    ctx: &C,
    graph: &G,
) -> Result<Vec<G::Node>, AllocError>
    requires { G.is_graph graph.now ctx.now }
    ensures { IfOk result (λ order. IsPostOrder (G.successors_of graph.now ctx.now)
        (G.nodes_of graph.now ctx.now) order.items) }
{
    let numbering = number(alloc, ctx, graph)?;
    let orders = depth_first(alloc, &numbering.rows, &numbering.numbers)?;
    nodes_at(alloc, &numbering.nodes, &orders.post)
}

/// The nodes that have some numbers, part by part.
fn parts_at<N: Copy + Drop>(
    alloc: Global,
    nodes: &[N],
    parts: &[Vec<usize>],
) -> Result<Vec<Vec<N>>, AllocError>
    requires { (named : _) × AreNamedParts nodes.now (lists_of parts.now) named }
    ensures { IfOk result (λ rows. AreNamedParts nodes.now (lists_of parts.now) (lists_of rows.items)) }
{
    let mut rows = Vec::new(alloc);
    for part in parts {
        rows.push(nodes_at(alloc, nodes, part)?)?;
    }
    Ok(rows)
}

/// The same order in parts: each node that the search didn't reach from those before it begins one, in which it stands
/// last.
///
/// In time linear in nodes and edges.
///
/// # Errors
/// There may be no memory.
pub fn post_order_by_component<C, G: ControlFlowGraph<C>>(
    alloc: Global,
    ctx: &C,
    graph: &G,
) -> Result<Vec<Vec<G::Node>>, AllocError>
    requires { G.is_graph graph.now ctx.now }
    ensures { IfOk result (λ parts. IsPostOrderApart (G.successors_of graph.now ctx.now)
        (G.nodes_of graph.now ctx.now) (lists_of parts.items)) }
{
    let numbering = number(alloc, ctx, graph)?;
    let parts = post_order_apart(alloc, &numbering.rows, &numbering.numbers)?;
    parts_at(alloc, &numbering.nodes, &parts)
}

/// Turns each row round.
fn reverse_each<N: Copy + Drop>(parts: &mut Vec<Vec<N>>)
    ensures { lists_of parts.new.items ≡ map reverse (lists_of parts.old.items) }
{
    for part in parts.iter_mut() {
        part.reverse();
    }
}

/// The parts of `post_order_by_component`, in the same order, each turned round: a part begins with the node from which
/// the others in it were reached.
///
/// In time linear in nodes and edges.
///
/// # Errors
/// There may be no memory.
pub fn topological_order_by_component<C, G: ControlFlowGraph<C>>(
    alloc: Global,
    ctx: &C,
    graph: &G,
) -> Result<Vec<Vec<G::Node>>, AllocError>
    requires { G.is_graph graph.now ctx.now }
    ensures { IfOk result (λ parts. IsTopologicalOrderApart (G.successors_of graph.now ctx.now)
        (G.nodes_of graph.now ctx.now) (lists_of parts.items)) }
{
    let mut parts = post_order_by_component(alloc, ctx, graph)?;
    reverse_each(&mut parts);
    Ok(parts)
}

/// Some rows, one after the other.
fn concatenated<N: Copy>(alloc: Global, parts: &[Vec<N>]) -> Result<Vec<N>, AllocError>
    ensures { IfOk result (λ order. order.items ≡ joined (lists_of parts.now)) }
{
    let mut order = Vec::new(alloc);
    for part in parts {
        order.extend_from_slice(part)?;
    }
    Ok(order)
}

/// The parts of `topological_order_by_component`, one after the other. The parts keep the order of the nodes that begin
/// them, so that an edge may lead from a later part back to an earlier one.
///
/// In time linear in nodes and edges.
///
/// # Errors
/// There may be no memory.
pub fn topological_order<C, G: ControlFlowGraph<C>>(
    alloc: Global,
    ctx: &C,
    graph: &G,
) -> Result<Vec<G::Node>, AllocError>
    requires { G.is_graph graph.now ctx.now }
    ensures { IfOk result (λ order. IsTopologicalOrder (G.successors_of graph.now ctx.now)
        (G.nodes_of graph.now ctx.now) order.items) }
{
    let parts = topological_order_by_component(alloc, ctx, graph)?;
    concatenated(alloc, &parts)
}
