//! Directed graphs whose nodes are the numbers below a count: row `n` holds the successors of node `n`, in order.
//! What a node reaches, depth-first orders, and strongly connected components, each without recursion and in time
//! linear in nodes and edges.
#![tactic(auto)]

mod components;
mod laws;
mod orders;
mod reach;
mod search;
mod transpose;
mod worklist;

pub use components::{Scc, sccs};
pub use laws::one_order;
pub use orders::{Orders, depth_first, post_order_apart};
pub use reach::reached;
pub use transpose::transposed;
pub use worklist::Worklist;
