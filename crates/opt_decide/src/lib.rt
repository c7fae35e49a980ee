//! Branches that their operands decide.
#![tactic(auto)]

mod alone;
mod deciding;
mod plan;
mod replacing;

pub use alone::types_of_results;
pub use deciding::decide_branches;
pub use plan::Decision;
pub use replacing::decide_branch;
