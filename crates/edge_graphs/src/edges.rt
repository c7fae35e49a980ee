//! Graphs as lists of edges between the numbers below a count.
ghost use Rattle.std.specs.Prelude.{◌<◌, IfOk, OnOk, length};
ghost use Rattle.digraph.specs.Graph.{InRange};
ghost use Rattle.digraph.specs.Transpose.{AreTransposed, IsEmptyRows};

use digraph::transposed;
use ir_graph::{ControlFlowGraph, HasLabel};
use std::alloc::{AllocError, Global};

/// A context that holds nothing: a graph here holds its own edges.
#[derive(Drop)]
pub struct Nothing {}

impl HasLabel<Nothing> for usize {
    ghost use Rattle.std.specs.Prelude.{◌≡◌, codes};

    ghost has_label = { λ n c. Unit {0} };

    ghost is_label = { λ n c text. text ≡ codes "n" };

    fn label(&self, alloc: Global, _ctx: &Nothing) -> Result<String, AllocError> {
        String::from_str(alloc, "n")
    }
}

/// For each number its successors, and its predecessors.
#[derive(Drop)]
pub struct Edges {
    pub rows: Vec<Vec<usize>>,
    pub back: Vec<Vec<usize>>,
}

impl ControlFlowGraph<Nothing> for Edges {
    ghost use Rattle.std.specs.Prelude.{length};
    ghost use Rattle.digraph.specs.Graph.{successors, InRange};
    ghost use Rattle.digraph.specs.Transpose.{AreTransposed};
    ghost use Rattle.edge_graphs.specs.Numbers.{numbers, first_number, numbers_distinct, first_in, onward_in, backward_in, converse_of, same_number};

    type Node = usize;

    ghost is_graph = { λ g c. InRange g.rows.items × AreTransposed g.rows.items g.back.items };

    ghost nodes_of = { λ g c. numbers (length g.rows.items) };

    ghost entry_of = { λ g c. first_number (length g.rows.items) };

    ghost successors_of = { λ g c n. successors g.rows.items n };

    ghost predecessors_of = { λ g c n. successors g.back.items n };

    fn num_successors(&self, _ctx: &Nothing, node: &usize) -> usize {
        self.rows[*node].len()
    }

    fn get_successor(&self, _ctx: &Nothing, node: &usize, index: usize) -> usize {
        self.rows[*node][index]
    }

    fn num_predecessors(&self, _ctx: &Nothing, node: &usize) -> usize {
        self.back[*node].len()
    }

    fn get_predecessor(&self, _ctx: &Nothing, node: &usize, index: usize) -> usize {
        self.back[*node][index]
    }

    fn entry_node(&self, _ctx: &Nothing) -> Option<usize> {
        if self.rows.is_empty() { None } else { Some(0) }
    }

    fn nodes(&self, alloc: Global, _ctx: &Nothing) -> Result<Vec<usize>, AllocError> {
        let mut nodes = Vec::new(alloc);
        for node in 0..self.rows.len() {
            nodes.push(node)?;
        }
        Ok(nodes)
    }

    ghost distinct = { λ g c h. numbers_distinct (length g.rows.items) };

    ghost entered = { λ g c h. first_in (length g.rows.items) };

    ghost onward = { λ g c h. onward_in g.rows.items g.back.items h.0 h.1 };

    ghost backward = { λ g c h. backward_in g.rows.items g.back.items h.0 h.1 };

    ghost converse = { λ g c h. converse_of g.rows.items g.back.items h.0 h.1 };

    ghost same = { same_number };
}

/// So many rows with nothing in them.
fn empty_rows(alloc: Global, count: usize) -> Result<Vec<Vec<usize>>, AllocError>
    ensures { IfOk result (λ rows. IsEmptyRows rows.items count) }
{
    let mut rows = Vec::new(alloc);
    for _row in 0..count {
        rows.push(Vec::new(alloc))?;
    }
    Ok(rows)
}

/// Puts an edge behind the others.
fn add_edge(rows: &mut Vec<Vec<usize>>, from: usize, to: usize) -> Result<(), AllocError>
    requires rows { InRange rows.old.items }
    requires from { from < length rows.old.items }
    requires to { to < length rows.old.items }
    ensures { OnOk result (InRange rows.new.items) }
{
    rows[from].push(to)?;
    Ok(())
}

/// The graph on the numbers below the count that has these edges.
pub fn graph_of(alloc: Global, count: usize, edges: &[(usize, usize)]) -> Result<Edges, AllocError>
    ensures { IfOk result (λ g. InRange g.rows.items × AreTransposed g.rows.items g.back.items) }
{
    let mut rows = empty_rows(alloc, count)?;
    for (from, to) in edges {
        if *from < rows.len() && *to < rows.len() {
            add_edge(&mut rows, *from, *to)?;
        }
    }
    let back = transposed(alloc, &rows)?;
    Ok(Edges { rows, back })
}
