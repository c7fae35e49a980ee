//! The grammar that formats make. It knows no dialect.
//!
//! [`grammar_of_kinds`](rules::grammar_of_kinds) makes the rules, signs and words of kinds with their formats, and takes
//! the table that fits them ([`PartTable`]); [`classify`](words::classify) gives each token its kind, and a number to each
//! spelling.
#![tactic(auto)]

pub mod given;
pub mod rules;
pub mod words;

pub use given::PartTable;
