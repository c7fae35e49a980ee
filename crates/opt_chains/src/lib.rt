//! Chains of blocks that are joined.
#![tactic(auto)]

mod chain_exits;
mod chain_firsts;
mod chain_joins;
mod chain_names;
mod chain_steps;
mod merge_plan;
mod merge_values;
mod merging;
mod next_blocks;
pub mod stand_ins;

pub use chain_joins::find_joins;
pub use merge_plan::apply_plan;
pub use merge_values::StandIn;
pub use merging::Join;
