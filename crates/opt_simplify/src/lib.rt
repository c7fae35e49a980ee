//! Simplification of control flow.
#![tactic(auto)]

mod remove;
mod remove_blocks;
mod remove_uses;

pub use remove::remove_unreached;
