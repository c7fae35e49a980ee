//! The dialect `kit`: what its kinds are to contexts, to texts and to the optimisations.
#![tactic(auto)]

mod attributes;
mod builtin;
mod dialect;
mod dropping;
mod ending;
mod formats;
mod meaning;
mod numbers;
mod operations;
mod parts;
mod table;
mod texts;
mod types;

pub use dialect::{Kit, Unused};
pub use ending::let_go;
