//! Graphs of control flow that are given as lists of edges, for tests and measurements.
#![tactic(auto)]

mod edges;

pub use edges::{Edges, Nothing, graph_of};
