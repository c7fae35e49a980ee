//! Which steps of a format a token begins.
#![tactic(auto)]

mod beginnings;
mod classes;

pub use beginnings::{all_begin, all_may_be_empty, begins};
pub use classes::{is_dotted, is_given, is_leaf, is_spelled};
