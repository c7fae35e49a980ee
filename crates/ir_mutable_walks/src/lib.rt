//! Walks over operations, regions and blocks whose callback may change them: what stands in the node that it is called
//! at, and attributes, operands and types everywhere. They are given a limit of calls, ask for no memory, and don't
//! recur.
#![tactic(auto)]

pub mod interruptible;
mod limit;
mod turning;
pub mod uninterruptible;
mod walking;

pub use limit::WalkLimit;
