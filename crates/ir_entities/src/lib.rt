//! What the store of a program's tree is made of: values under keys that no later value gets, lists
//! threaded through tables, a forest of operations, blocks and regions, and which places name
//! which definitions. None of it knows a dialect.
#![tactic(auto)]

mod editing;
mod erasing;
mod forest;
mod link;
mod making;
mod reading;
mod rows;
mod siblings;
mod uses;
mod walking;

pub use forest::{Forest, Place};
pub use ir_arena::{Arena, Key, Slot};
pub use rows::{clear_row, insert_place, push_place, release, remove_place, renumber};
pub use siblings::{Backward, Forward, Siblings, Walk};
pub use uses::{Spot, Uses, UsesOf};
