//! Joining chains of blocks.

mod merge;
mod plan;

pub use merge::merge_chains;
