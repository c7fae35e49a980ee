//! Graphs of control flow: orders, components and traversals of any graph that a context holds, as the blocks of a region are.
#![tactic(auto)]

mod block_labels;
mod components;
mod graph;
mod local_edges;
mod numbering;
mod orders;
mod regions;
mod reverse;
mod sinks;
mod traversal;

pub use components::sccs_in_topological_order;
pub use digraph::Scc;
pub use graph::{ControlFlowGraph, HasLabel};
pub use local_edges::has_local_edges;
pub use orders::{
    post_order, post_order_by_component, topological_order, topological_order_by_component,
};
pub use reverse::{ReverseGraph, ReverseNode};
pub use traversal::{DFSEdgeKind, DFSTraversal};
