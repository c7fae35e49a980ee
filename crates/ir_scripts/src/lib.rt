//! Scripts over a context of a small dialect, for tests: lines of edits and of questions with their answers.
#![tactic(auto)]

mod argument;
mod around;
mod asking;
mod blocks;
mod edges;
mod edits;
mod graphs;
mod making;
pub mod markers;
mod names;
mod operations;
mod parts;
mod picture;
mod player;
mod texts;
pub mod tiny;
mod values;
mod verifying;

pub use player::{Surprise, finish, play};
