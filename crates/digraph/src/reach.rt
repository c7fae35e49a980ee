//! What can be reached from a node.
ghost use Rattle.std.specs.Prelude.{ℕ, ◌<◌, ◌↔◌, IfOk, length};
ghost use Rattle.digraph.specs.Graph.{successors, InRange, Reaches};
ghost use Rattle.digraph.specs.Marks.{IsMarked};

use crate::worklist::Worklist;
use std::alloc::{AllocError, Global};

/// Marks the nodes that a path leads to from `entry`, itself among them, by a worklist.
///
/// # Errors
/// There may be no memory.
pub fn reached(alloc: Global, graph: &[Vec<usize>], entry: usize) -> Result<Vec<bool>, AllocError>
    requires graph { InRange graph.now }
    requires entry { entry < length graph.now }
    ensures { IfOk result (λ found. (n : ℕ) → IsMarked found.items n ↔ Reaches (successors graph.now) entry n) }
{
    let mut work = Worklist::new(alloc, graph.len())?;
    work.add(entry)?;
    while let Some(node) = work.take() {
        work.add_all(&graph[node])?;
    }
    Ok(work.into_marked())
}
