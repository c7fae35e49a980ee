//! What is dead inside an operation, for dead code elimination.

mod candidates;
mod closing;
mod dead;
mod definers;
mod forwarding;
mod keeping;
mod numbers;
mod plan;
mod problem;
mod taking;

pub use dead::dead_plan;
pub use plan::{DeadArguments, DeadPlan, LostOperands};
