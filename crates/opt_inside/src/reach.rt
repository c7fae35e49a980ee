//! Blocks that paths from the entries of their regions lead to, and what becomes of each block inside an operation.

mod fates;
mod laws;
mod paths;
mod starts;

pub use fates::{Fate, find_fates, unreached_among};
pub use laws::know_edges_under;
pub use starts::{Start, has_start};
