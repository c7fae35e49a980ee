//! The operation of a text is put into a context in one pass over what reading did ([`assemble`](assembling::assemble)).
#![tactic(auto)]

mod actions;
pub mod assembling;
mod beginning;
mod ending;
mod making;
mod values;
