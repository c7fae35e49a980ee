//! The grammar of a dialect's texts, made from its formats; and what the names of a text mean, and the first fault of
//! names.
//!
//! A dialect gives the table by which its texts are read ([`ReadDialect`]). What is made of its kinds and of the table
//! knows no dialect: `ir_formats` makes it. Of names the dialect is asked which kinds of operations are isolated from
//! above; the rest knows no dialect.

mod given;
mod rules;
mod scopes;

pub use given::ReadDialect;
pub use ir_formats::PartTable;
pub use ir_formats::rules::DialectGrammar;
pub use rules::{grammar_of, table_of};
pub use scopes::resolve;
