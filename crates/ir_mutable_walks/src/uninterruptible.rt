//! Walks that go over each node up to the end, or to their limit.
pub mod mutable;
