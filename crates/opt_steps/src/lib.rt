//! Steps of the solvers: edges that are taken, uses that keep what they use or let it go, blocks that are joined.
#![tactic(auto)]

mod chains_joined;
mod dead_kept;
mod dead_release;
mod facts_edges;

pub use chains_joined::joined;
pub use dead_kept::kept_rows;
pub use dead_release::{Counts, excuse_between, excuse_row, started};
pub use facts_edges::{mark_targets, take_marked};
