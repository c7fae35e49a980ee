//! Operands and successors by their names, in a text, and definitions of names.
#![tactic(auto)]

mod definitions;
mod operands;

pub use definitions::define_name;
pub use operands::{block_opd_parse, ssa_opd_parse};
