//! Walks that go over each node up to the end.
pub mod immutable;
