//! Small dialects that can be optimised, and the programs of one of them as texts.
#![tactic(auto)]

mod lone;
mod meaning;
mod reading;
mod sparse;
mod tiny;
mod writing;

pub use lone::Lone;
pub use reading::{Tree, Unread, let_go, read};
pub use sparse::Sparse;
pub use tiny::{Bare, Kind, OneType, Payload, Tiny};
pub use writing::written;
