//! The three optimisations as passes.
#![tactic(auto)]

mod condition;
mod constants;
mod control_flow;
mod dead_code;

pub use constants::SCCPPass;
pub use control_flow::SimplifyCFGPass;
pub use dead_code::DCEPass;
