//! Verifying a module of `kit`: all its rules, and the first one that is broken.
#![tactic(auto)]

mod callees;
mod calls;
mod modules;
mod names;
mod reading;
mod repeats;
mod rows;
mod scopes;
mod search;
mod signatures;
mod symbols;
mod table;
mod verify;

pub use rows::formats_are_rows;
pub use verify::{first_broken, verify_module};
