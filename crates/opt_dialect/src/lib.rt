//! What the three optimisations ask of a dialect, and what they answer.
#![tactic(auto)]

mod dialect;
mod removal;
mod status;

pub use dialect::{
    BlockArgRemoval, BranchOpFoldInterface, ConstFoldInterface, Meanings, OptDialect, SideEffects,
};
pub use removal::is_removable;
pub use status::{IRStatus, OptError};
