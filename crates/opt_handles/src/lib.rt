//! What becomes of handles where a pass changes a program: definitions, and laws over them.
#![tactic(auto)]

mod laws;

pub use laws::{handles_compose, new_handles_are_fresh};
