//! Orders and components.
use crate::asserting::same;
use edge_graphs::{Nothing, graph_of};
use ir_graph::{
    post_order, post_order_by_component, sccs_in_topological_order, topological_order,
    topological_order_by_component,
};
use std::alloc::{AllocError, Global};
use std::test::Fail;

/// Both orders of the graph with these edges, as a text.
fn orders(alloc: Global, count: usize, edges: &[(usize, usize)]) -> Result<String, AllocError> {
    let graph = graph_of(alloc, count, edges)?;
    let post = post_order(alloc, &Nothing {}, &graph)?;
    let topological = topological_order(alloc, &Nothing {}, &graph)?;
    format!(in alloc; "{post:?} {topological:?}")
}

/// The same by components.
fn orders_by_component(
    alloc: Global,
    count: usize,
    edges: &[(usize, usize)],
) -> Result<String, AllocError> {
    let graph = graph_of(alloc, count, edges)?;
    let post = post_order_by_component(alloc, &Nothing {}, &graph)?;
    let topological = topological_order_by_component(alloc, &Nothing {}, &graph)?;
    format!(in alloc; "{post:?} {topological:?}")
}

/// The components, the nodes of each in order.
fn components(alloc: Global, count: usize, edges: &[(usize, usize)]) -> Result<String, AllocError> {
    let graph = graph_of(alloc, count, edges)?;
    let mut text = String::new(alloc);
    for mut part in sccs_in_topological_order(alloc, &Nothing {}, &graph)? {
        part.nodes.sort()?;
        let line = format!(in alloc; "{:?} {};", part.nodes, part.is_cyclic)?;
        text.push_str(&line)?;
    }
    Ok(text)
}

#[test]
fn a_node_is_left_after_all_that_are_first_seen_from_it(rt: HostRuntime) -> Result<(), Fail> {
    let alloc = rt.alloc();
    let diamond = orders(alloc, 4, &[(0, 1), (0, 2), (1, 3), (2, 3)])?;
    same(&rt, diamond.as_str(), "[3, 1, 2, 0] [0, 2, 1, 3]");
    let chain = orders(alloc, 3, &[(0, 1), (1, 2)])?;
    same(&rt, chain.as_str(), "[2, 1, 0] [0, 1, 2]");
    Ok(())
}

#[test]
fn components_keep_their_order(rt: HostRuntime) -> Result<(), Fail> {
    let alloc = rt.alloc();
    let apart = orders(alloc, 5, &[(0, 1), (2, 3)])?;
    same(&rt, apart.as_str(), "[1, 0, 3, 2, 4] [0, 1, 2, 3, 4]");
    let cycle = orders_by_component(alloc, 4, &[(0, 1), (1, 2), (2, 0)])?;
    same(&rt, cycle.as_str(), "[[2, 1, 0], [3]] [[0, 1, 2], [3]]");
    Ok(())
}

#[test]
fn what_reaches_each_other_is_one_component(rt: HostRuntime) -> Result<(), Fail> {
    let alloc = rt.alloc();
    for (count, edges, expected) in [
        (
            3,
            [(0, 1), (1, 2)].as_slice(),
            "[0] false;[1] false;[2] false;",
        ),
        (
            4,
            [(0, 1), (1, 2), (1, 3), (2, 1)].as_slice(),
            "[0] false;[1, 2] true;[3] false;",
        ),
        (
            5,
            [(0, 1), (1, 2), (2, 3), (3, 1), (3, 2), (3, 4)].as_slice(),
            "[0] false;[1, 2, 3] true;[4] false;",
        ),
        (1, [(0, 0)].as_slice(), "[0] true;"),
    ] {
        same(&rt, components(alloc, count, edges)?.as_str(), expected);
    }
    Ok(())
}

#[test]
fn a_component_is_cyclic_alone(rt: HostRuntime) -> Result<(), Fail> {
    let alloc = rt.alloc();
    let graph = graph_of(alloc, 4, &[(0, 1), (2, 3), (3, 2)])?;
    let parts = sccs_in_topological_order(alloc, &Nothing {}, &graph)?;
    same(&rt, parts.len(), 3);
    for part in &parts {
        same(&rt, part.is_cyclic, part.nodes.len() == 2);
    }
    Ok(())
}

#[test]
fn a_component_is_copied_and_shown(rt: HostRuntime) -> Result<(), Fail> {
    let alloc = rt.alloc();
    let graph = graph_of(alloc, 1, &[])?;
    for part in &sccs_in_topological_order(alloc, &Nothing {}, &graph)? {
        let copy = part.clone()?;
        let text = format!(in alloc; "{copy:?}")?;
        same(&rt, text.as_str(), "Scc { nodes: [0], is_cyclic: false }");
    }
    Ok(())
}
