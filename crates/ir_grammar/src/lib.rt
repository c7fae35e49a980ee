//! Grammars as data, and the engine that reads by them.
//!
//! A [`Grammar`] is data: rules, signs (each a set of kinds of token) and a table worked out of them by [`Grammar::new`].
//! [`Grammar::can_read`] tests that the next token decides each step; [`Grammar::read`] then reads the longest front of some kinds
//! that begins a text. Its answer is a list of events: a token that was taken, or an [`Action`] of a rule that was met at the token
//! before it. Begin and end actions are the brackets of what a tree would hold, so a reader of events needs no tree, and a list is
//! flat however long it is.
#![tactic(auto)]

mod check;
pub mod grammar;
mod pending;
mod table;

pub use grammar::{Action, Change, Class, Event, Facts, Grammar, Reading, Rule, Stop, Symbol};
