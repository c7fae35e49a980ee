//! Functions of `kit` in a flat, numbered form, and the steps of the machine over them.
#![tactic(auto)]

mod checking;
mod flat;
mod forming;
mod frames;
mod interpreter;
mod outcome;

pub use checking::is_sound;
pub use flat::{FlatBlock, FlatEdge, FlatFunction, FlatModule, Instruction};
pub use forming::{FlatForm, instruction};
pub use interpreter::{Running, Turn};
pub use outcome::Outcome;
