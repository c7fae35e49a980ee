//! The most precise facts of what is inside an operation, for constant propagation.

mod facts;
mod folding;
mod numbers;
mod problem;
mod rows;

pub use facts::{KnownFacts, best_facts};
