//! The check of formats, for authors of dialects: whether the next token decides each step of reading by a format.
#![tactic(auto)]

mod check;
mod classes;
mod decided;

pub use check::{BadFormat, FormatSort, check_format};
