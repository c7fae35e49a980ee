//! Which operation or block each mark of a text belongs to.
//!
//! An operation's mark is behind its body, and a block's mark is in its header, before the `:`. So each belongs to the item
//! that ends behind as many tokens as are before the mark. [`item_ends`] gives the number of tokens behind which each item
//! ends, [`marked_items`] the number of each mark's item.
#![tactic(auto)]

mod ends;
mod items;
pub mod laws;

pub use ends::item_ends;
pub use items::marked_items;
