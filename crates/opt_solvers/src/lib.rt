//! Solvers of the three optimisations over numbered data, which know no IR.
#![tactic(auto)]

mod chains_followed;
mod dead_items;
mod dead_rows;
mod dead_uses;
mod facts;
mod facts_rows;
mod facts_seen;
mod facts_solver;
mod facts_tables;
mod facts_values;

pub use chains_followed::followed;
pub use dead_items::dead;
pub use facts::{Solution, most_precise, one_most_precise};
