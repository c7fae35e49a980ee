//! Walks over operations, regions and blocks: in which order the nodes are called, what a callback answers, and the
//! walks themselves. They ask for no memory, and don't recur.
#![tactic(auto)]

mod config;
mod context;
pub mod interruptible;
mod laws;
mod lists;
mod results;
pub mod turns;
pub mod uninterruptible;
mod walking;

pub use config::{
    Direction, Level, Order, WALKCONFIG_POSTORDER_FORWARD, WALKCONFIG_POSTORDER_REVERSE,
    WALKCONFIG_PREORDER_FORWARD, WALKCONFIG_PREORDER_REVERSE, WalkConfig,
};
pub use context::HasProgram;
pub use ir_program::IRNode;
pub use laws::lemma_post_order_reverses;
pub use results::{WalkContinue, WalkResult, walk_advance, walk_break, walk_skip};
