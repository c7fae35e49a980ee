//! Running the functions of a module of `kit`.
#![tactic(auto)]

mod executing;
mod functions;
mod lowering;
mod numbering;

pub use executing::{ExecFault, exec};
