//! How far a solver of facts has come.

use crate::facts_seen::Seen;
use opt_rows::{Found, Taken};

/// What has been found so far, and what operations and their edges have seen of it.
#[derive(Drop)]
pub struct Solver<K> {
    /// What has been found.
    pub found: Found<K>,
    /// What each operation has seen of its operands.
    pub seen: Seen<K>,
    /// Of each operation, which of its edges are taken: their targets are feasible.
    pub taken: Taken,
    /// Of each block, the operation that was the last to find one of its edges to it feasible.
    pub marks: Vec<Option<usize>>,
}
