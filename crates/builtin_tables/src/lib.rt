//! What interfaces ask of a dialect: what its attributes and types hold, where its operations keep what, and which interfaces
//! each kind of operations implements.
#![tactic(auto)]

mod dialect;
pub mod keys;

pub use dialect::{BuiltinDialect, CalleePlace, SuccessorLayout};
