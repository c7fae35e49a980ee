//! What the names of a text stand for, while it is read.
#![tactic(auto)]

mod mentions;
mod names;

pub use mentions::mention;
pub use names::{DefineError, Known, NameScope};
