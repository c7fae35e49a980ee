//! Printing of operations, over formats that are data, and of modules, as texts that are read again.
//!
//! The text of an operation is the layout of its tree of texts: it follows the formats that a dialect gives, and knows no
//! dialect.
#![tactic(auto)]

mod operations;
mod printing;
mod values;
mod words;

pub use operations::print_root;
pub use printing::print_module;
