//! How deep parts may stand in one another.

/// Regions, types and attributes stand in one another at most so deep.
pub const DEEPEST: usize = 64;
