//! What stood in for a value or a block of a program, once that is there.
#![tactic(auto)]

mod resolving;

pub use resolving::{resolve_label, resolve_value};
