//! Texts cut into tokens, and the faults of texts, which are named by their tokens.
//!
//! [`token_at`] gives the longest token at a character of a text: a name, number, mark, quoted text or sign. A character that begins
//! none is a bad token, the last of its text. [`place_after`] says in which line and column a token stands. Of two faults that a
//! text has [`first_of`](faults::first_of) gives the one that is named. [`Numbers`] are what a text has for its tokens, one
//! for each.
#![tactic(auto)]

pub mod faults;
pub mod numbers;
pub mod scan;
pub mod tokens;

pub use faults::{ScopeCause, TextFault};
pub use numbers::Numbers;
pub use tokens::{Token, TokenKind, place_after, token_at};
