//! The tokens of a stream of characters, one by one.
#![tactic(auto)]

mod lexemes;
mod scan;

pub use lexemes::{Lexeme, next_token};
