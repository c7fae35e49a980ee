//! Walks that a callback can end, or send past what stands in a node.
pub mod mutable;
