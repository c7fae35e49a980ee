//! Nodes by number, so that the searches run on rows of numbers.
ghost use Rattle.std.specs.Prelude.{◌≡◌, ℕ, true, Some, All, Contains, IfOk, map, slice_get};
ghost use Rattle.ir_graph.specs.Graphs.{AreDistinctNodes, AreNodeNumbers, AreSuccessorRows, IsNumbering};

use crate::ControlFlowGraph;
use indexmap::IndexSet;
use std::alloc::{AllocError, Global};
use std::hash::Hash;

/// A graph by numbers: the nodes in their order, their numbers, and for each the numbers of its successors.
#[derive(Drop)]
pub(crate) struct Numbering<N> {
    pub nodes: Vec<N>,
    pub numbers: Vec<usize>,
    pub rows: Vec<Vec<usize>>,
}

/// The set of some nodes, in their order.
pub(crate) fn set_of<N: Copy + Eq + Hash + Drop>(
    alloc: Global,
    nodes: &[N],
) -> Result<IndexSet<N>, AllocError>
    requires same { (a b : N) → N.eq a b ≡ true → a ≡ b }
    requires distinct { AreDistinctNodes nodes.now }
    ensures { IfOk result (λ set. set.keys ≡ nodes.now) }
{
    let mut set = IndexSet::new(alloc);
    for node in nodes {
        set.insert(*node)?;
    }
    Ok(set)
}

/// The numbers of some nodes.
pub(crate) fn number_row<N: Copy + Eq + Hash + Drop>(
    alloc: Global,
    set: &IndexSet<N>,
    row: &[N],
) -> Result<Vec<usize>, AllocError>
    requires same { (a b : N) → N.eq a b ≡ true → a ≡ b }
    requires known { All (λ n. Contains set.now.keys n) row.now }
    ensures { IfOk result (λ ids. AreNodeNumbers set.now.keys ids.items row.now) }
{
    let mut ids = Vec::new(alloc);
    for node in row {
        match set.get_index_of(node) {
            Some(number) => ids.push(number)?,
            None => unreachable!(),
        }
    }
    Ok(ids)
}

/// The nodes that have some numbers.
pub(crate) fn nodes_at<N: Copy>(
    alloc: Global,
    nodes: &[N],
    ids: &[usize],
) -> Result<Vec<N>, AllocError>
    requires { (named : _) × AreNodeNumbers nodes.now ids.now named }
    ensures { IfOk result (λ row. AreNodeNumbers nodes.now ids.now row.items) }
{
    let mut row = Vec::new(alloc);
    for id in ids {
        row.push(nodes[*id])?;
    }
    Ok(row)
}

/// For each node of a graph the numbers of its successors. Each is asked once.
fn successor_rows<C, G: ControlFlowGraph<C>>(
    alloc: Global,
    ctx: &C,
    graph: &G,
    nodes: &[G::Node],
    set: &IndexSet<G::Node>,
) -> Result<Vec<Vec<usize>>, AllocError>
    requires graph { G.is_graph graph.now ctx.now }
    requires nodes { nodes.now ≡ G.nodes_of graph.now ctx.now }
    requires set { set.now.keys ≡ nodes.now }
    ensures { IfOk result (λ rows. AreSuccessorRows (G.successors_of graph.now ctx.now) nodes.now rows.items) }
{
    let mut rows = Vec::new(alloc);
    for node in nodes {
        let row = graph.successors(alloc, ctx, node)?;
        rows.push(number_row(alloc, set, &row)?)?;
    }
    Ok(rows)
}

/// Numbers the nodes of a graph. Each node is asked once for its successors.
pub(crate) fn number<C, G: ControlFlowGraph<C>>(
    alloc: Global,
    ctx: &C,
    graph: &G,
) -> Result<Numbering<G::Node>, AllocError>
    requires { G.is_graph graph.now ctx.now }
    ensures { IfOk result (λ n. IsNumbering (G.successors_of graph.now ctx.now)
        (G.nodes_of graph.now ctx.now) n.nodes.items n.numbers.items n.rows.items) }
{
    let nodes = graph.nodes(alloc, ctx)?;
    let set = set_of(alloc, &nodes)?;
    let numbers = number_row(alloc, &set, &nodes)?;
    let rows = successor_rows(alloc, ctx, graph, &nodes, &set)?;
    Ok(Numbering {
        nodes,
        numbers,
        rows,
    })
}
