//! Runs of the machine of `kit`: so many steps, and what they come to.
#![tactic(auto)]

mod driving;

pub use driving::interpret;
