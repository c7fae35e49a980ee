//! A rewriter of programs, with insertion points.

mod point;
mod rewriter;

pub use point::OpInsertionPoint;
pub use rewriter::Rewriter;
