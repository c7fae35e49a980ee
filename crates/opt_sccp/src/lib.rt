//! Constant propagation.
#![tactic(auto)]

mod propagating;
mod putting;
mod wanted;

pub use propagating::sccp;
pub use putting::{Made, put_constants};
