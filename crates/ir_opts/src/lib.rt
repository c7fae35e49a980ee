//! The optimisations, for every dialect that is lawful.
#![tactic(auto)]

mod control_flow;
mod joining;
mod merging;
mod places;
mod rewriting;

pub use control_flow::simplify_cfg;
pub use merging::{merge_inside_block, merge_inside_op, merge_inside_region};
pub use opt_dce::dce;
pub use opt_dialect::{
    BlockArgRemoval, BranchOpFoldInterface, ConstFoldInterface, IRStatus, Meanings, OptDialect,
    OptError, SideEffects,
};
pub use opt_inside::forwarding::{fits_edges_from, has_local_edges_below, has_local_edges_from};
pub use opt_inside::reach::{Start, know_edges_under};
pub use opt_sccp::sccp;
pub use places::{
    remove_blocks_inside_block, remove_blocks_inside_op, remove_blocks_inside_region,
    root_of_block, root_of_region,
};
pub use rewriting::{OpInsertionPoint, Rewriter};
