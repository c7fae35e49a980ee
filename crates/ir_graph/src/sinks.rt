//! The last numbers of the components that no edge leaves.
ghost use Rattle.std.specs.Prelude.{◌≡◌, ◌<◌, ◌≤◌, ◌↔◌, All, Contains, IfOk, IsTrue, MatchOption, OnOk, length};
ghost use Rattle.digraph.specs.Graph.{InRange, successors};
ghost use Rattle.digraph.specs.Sccs.{AreSccs};
ghost use Rattle.ir_graph.specs.Sinks.{AddsEnd, AnyMarked, AreSinkEnds, LeadsOut, MarksAll};

use digraph::Scc;
use std::alloc::{AllocError, Global};

/// Whether one of the numbers is marked.
fn has_marked(marks: &[bool], row: &[usize]) -> bool
    requires { All (λ n. n < length marks.now) row.now }
    ensures { IsTrue result ↔ AnyMarked marks.now row.now }
{
    for node in row {
        if marks[*node] {
            return true;
        }
    }
    false
}

/// Whether an edge leads from one of the nodes to a marked one.
fn leads_out(graph: &[Vec<usize>], marks: &[bool], nodes: &[usize]) -> bool
    requires graph { InRange graph.now }
    requires len { length marks.now ≡ length graph.now }
    requires nodes { All (λ n. n < length graph.now) nodes.now }
    ensures { IsTrue result ↔ LeadsOut (successors graph.now) marks.now nodes.now }
{
    for node in nodes {
        if has_marked(marks, &graph[*node]) {
            return true;
        }
    }
    false
}

/// Marks some numbers.
fn mark_all(marks: &mut Vec<bool>, nodes: &[usize])
    requires { All (λ n. n < length marks.old.items) nodes.now }
    ensures { MarksAll marks.old.items marks.new.items nodes.now }
{
    for node in nodes {
        marks[*node] = true;
    }
}

/// The greatest of some numbers.
fn last_of(nodes: &[usize]) -> Option<usize>
    ensures { MatchOption result (length nodes.now ≡ 0) (λ last. Contains nodes.now last
        × All (λ n. n ≤ last) nodes.now) }
{
    nodes.iter().copied().max()
}

/// Adds the greatest number of a component, if no edge leads from it to a marked one.
fn add_end(
    graph: &[Vec<usize>],
    marks: &[bool],
    ends: &mut Vec<usize>,
    nodes: &[usize],
) -> Result<(), AllocError>
    requires graph { InRange graph.now }
    requires len { length marks.now ≡ length graph.now }
    requires nodes { All (λ n. n < length graph.now) nodes.now }
    ensures { OnOk result (AddsEnd (successors graph.now) marks.now nodes.now ends.old.items ends.new.items) }
{
    if leads_out(graph, marks, nodes) {
        return Ok(());
    }
    let Some(last) = last_of(nodes) else {
        return Ok(());
    };
    ends.push(last)?;
    Ok(())
}

/// The greatest number of each strongly connected component that no edge leaves, where the components are in topological
/// order: from the last to the first, each is looked at while all later ones are marked.
pub(crate) fn sink_ends(
    alloc: Global,
    graph: &[Vec<usize>],
    mut parts: Vec<Scc<usize>>,
) -> Result<Vec<usize>, AllocError>
    requires graph { InRange graph.now }
    requires parts { AreSccs (successors graph.now) (λ n. n < length graph.now) parts.items }
    ensures { IfOk result (λ ends. AreSinkEnds (successors graph.now) (length graph.now) ends.items) }
{
    let mut marks = vec![in alloc; false; graph.len()]?;
    let mut ends = Vec::new(alloc);
    'parts: while let Some(part) = parts.pop() {
        add_end(graph, &marks, &mut ends, &part.nodes)?;
        mark_all(&mut marks, &part.nodes);
    }
    Ok(ends)
}
