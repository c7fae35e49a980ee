//! Trees of operations, and the tree that an operation of a program stands for.
#![tactic(auto)]

mod laws;
mod list_laws;
mod renaming_laws;
mod seen_laws;

pub use laws::{
    know_edited, know_handles, know_one_tree, know_rewritten, know_tree, know_unmoved, know_uses,
};
pub use list_laws::{
    know_appended, know_block_taken_out, know_erased, know_operations, know_put, know_replaced,
    know_retargeted, know_taken_out,
};
pub use renaming_laws::{
    know_places, know_places_renamed, know_renamed, know_rewritten_renamed, know_same,
    know_same_renamed, know_same_trees, know_search_renamed, know_uses_renamed,
};
pub use seen_laws::{know_keeping, know_kept, know_seen};
