//! Edges: whether they stay in their regions, and what is forwarded along them.

mod fits;
mod forwarded;
mod local;
mod under;

pub use fits::fits_edges_from;
pub use forwarded::forwarded_operands;
pub use local::has_local_edges_below;
pub use under::has_local_edges_from;
