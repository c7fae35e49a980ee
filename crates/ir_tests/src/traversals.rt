//! Searches from the entry.
use crate::asserting::same;
use edge_graphs::{Nothing, graph_of};
use ir_graph::{DFSEdgeKind, DFSTraversal};
use std::alloc::{AllocError, Global};
use std::test::Fail;

/// The kind of an edge between nodes that the search saw.
fn kind(search: &DFSTraversal<usize>, from: usize, to: usize) -> Option<DFSEdgeKind> {
    if search.contains(&from) && search.contains(&to) {
        Some(search.edge_kind(&from, &to))
    } else {
        None
    }
}

/// The kinds of all edges of a graph, in order.
fn kinds(
    alloc: Global,
    count: usize,
    edges: &[(usize, usize)],
) -> Result<Vec<DFSEdgeKind>, AllocError> {
    let graph = graph_of(alloc, count, edges)?;
    let search = DFSTraversal::new(alloc, &Nothing {}, &graph)?;
    let mut found = Vec::new(alloc);
    for (from, to) in edges {
        if let Some(kind) = kind(&search, *from, *to) {
            found.push(kind)?;
        }
    }
    Ok(found)
}

/// The three numbers of a node that the search saw.
fn numbers(search: &DFSTraversal<usize>, node: usize) -> Option<(usize, usize, usize)> {
    if !search.contains(&node) {
        return None;
    }
    Some((
        search.pre_order_number(&node),
        search.post_order_number(&node),
        search.reverse_post_order_number(&node),
    ))
}

/// The three orders of a search, as a text.
fn orders(alloc: Global, search: &DFSTraversal<usize>) -> Result<String, AllocError> {
    let pre = search.pre_order(alloc)?;
    let post = search.post_order(alloc)?;
    let reverse = search.reverse_post_order(alloc)?;
    format!(in alloc; "{pre:?} {post:?} {reverse:?}")
}

#[test]
fn edges_have_kinds(rt: HostRuntime) -> Result<(), Fail> {
    let alloc = rt.alloc();
    let found = kinds(alloc, 4, &[(0, 1), (0, 2), (1, 3), (2, 3), (3, 0), (3, 3)])?;
    let text = format!(in alloc; "{found:?}")?;
    same(
        &rt,
        text.as_str(),
        "[Forward, Forward, Forward, Cross, Back, Back]",
    );
    Ok(())
}

#[test]
fn loops_have_back_edges(rt: HostRuntime) -> Result<(), Fail> {
    let alloc = rt.alloc();
    let edges = [
        (0, 1),
        (0, 5),
        (1, 2),
        (1, 4),
        (2, 3),
        (2, 6),
        (3, 4),
        (3, 2),
        (4, 5),
        (4, 1),
        (6, 3),
    ];
    let graph = graph_of(alloc, 7, &edges)?;
    let search = DFSTraversal::new(alloc, &Nothing {}, &graph)?;
    let text = orders(alloc, &search)?;
    same(
        &rt,
        text.as_str(),
        "[0, 1, 2, 3, 4, 5, 6] [5, 4, 3, 6, 2, 1, 0] [0, 1, 2, 6, 3, 4, 5]",
    );
    same(&rt, numbers(&search, 6), Some((6, 3, 3)));
    for (from, to) in edges {
        let expected = match (from, to) {
            (3, 2) | (4, 1) => DFSEdgeKind::Back,
            (6, 3) => DFSEdgeKind::Cross,
            _ => DFSEdgeKind::Forward,
        };
        same(&rt, kind(&search, from, to), Some(expected));
    }
    Ok(())
}

#[test]
fn an_empty_graph_has_an_empty_search(rt: HostRuntime) -> Result<(), Fail> {
    let alloc = rt.alloc();
    let graph = graph_of(alloc, 0, &[])?;
    let search = DFSTraversal::new(alloc, &Nothing {}, &graph)?;
    let text = orders(alloc, &search)?;
    same(&rt, text.as_str(), "[] [] []");
    assert!(rt; !search.contains(&0));
    Ok(())
}
