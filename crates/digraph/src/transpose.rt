//! A graph with its edges turned round.
ghost use Rattle.std.specs.Prelude.{ℕ, ◌≡◌, ◌<◌, All, IfOk, OnOk, length};
ghost use Rattle.digraph.specs.Graph.{successors, InRange};
ghost use Rattle.digraph.specs.Transpose.{AreTransposed, IsEmptyRows, AddsSource};

use std::alloc::{AllocError, Global};

/// So many rows with nothing in them.
fn empty_rows(alloc: Global, count: usize) -> Result<Vec<Vec<usize>>, AllocError>
    ensures { IfOk result (λ rows. IsEmptyRows rows.items count) }
{
    let mut rows = Vec::new(alloc);
    for _row in 0..count {
        rows.push(Vec::new(alloc))?;
    }
    Ok(rows)
}

/// Puts a node behind the others into the row of each of its successors.
fn add_source(reverse: &mut Vec<Vec<usize>>, node: usize, row: &[usize]) -> Result<(), AllocError>
    requires { All (λ n. n < length reverse.old.items) row.now }
    ensures { OnOk result (AddsSource reverse.old.items reverse.new.items node row.now) }
{
    for successor in row {
        reverse[*successor].push(node)?;
    }
    Ok(())
}

/// The same nodes with each edge turned round. An edge that the graph has twice it has twice.
///
/// # Errors
/// There may be no memory.
pub fn transposed(alloc: Global, graph: &[Vec<usize>]) -> Result<Vec<Vec<usize>>, AllocError>
    requires { InRange graph.now }
    ensures { IfOk result (λ reverse. AreTransposed graph.now reverse.items) }
{
    let mut reverse = empty_rows(alloc, graph.len())?;
    for node in 0..graph.len() {
        add_source(&mut reverse, node, &graph[node])?;
    }
    Ok(reverse)
}
