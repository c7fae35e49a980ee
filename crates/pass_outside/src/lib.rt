//! What a pass at an operation leaves of all that isn't inside it, and the operations of an operation's blocks.
#![tactic(auto)]

mod laws;
mod nested;

pub use laws::know_sound;
pub use nested::nested_operations;
