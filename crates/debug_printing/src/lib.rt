//! Printing of operations for debugging: each in one line, without what stands in its regions.
#![tactic(auto)]

mod operations;
mod rows;

pub use operations::{OpDbg, print_dbg};
