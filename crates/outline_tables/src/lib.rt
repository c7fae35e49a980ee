//! The entries of a section of outlined attributes, by their indices: what the marks of a text lead to.
#![tactic(auto)]

mod entries;
mod errors;
mod tables;

pub use entries::{Entry, Outlined, Reference};
pub use errors::OutlineError;
pub use tables::OutlineTable;
