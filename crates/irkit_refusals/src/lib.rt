//! Why a call of `irkit` is refused, and what the bytes of an input say.
//!
//! A [`Refusal`] is made of each fault of the crates below, and has a number. [`ExecutionFault`] says, too, why a
//! function of a module that was read isn't run. Which bytes deserve which refusal is defined beside them.
#![tactic(auto)]

mod refusal;

pub use refusal::{ExecutionFault, Refusal};
