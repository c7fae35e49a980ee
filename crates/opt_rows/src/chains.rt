//! Chains of blocks that are joined, and values that stand for others.

/// A block, as joining sees it.
#[derive(Clone, Copy)]
pub struct ChainBlock {
    /// The one block that it goes on to, if it may be joined with that one as far as it is concerned.
    pub only: Option<usize>,
    /// Whether it is the first of its region.
    pub is_entry: bool,
    /// How many edges lead to it.
    pub edges: usize,
}
