//! The words of `irkit`'s command line, and what they ask for.
//!
//! [`parse`] reads the words by the command line's grammar, and [`request_of`] says what a parse asks for: a [`Request`]
//! with its numbers and passes, or a [`RequestFault`].
#![tactic(auto)]

mod command;
mod lines;
mod parsing;
mod passes;
mod request;

pub use command::{VERSION, parse};
pub use kit_ops::KitPass;
pub use lines::{MEMORY_LINE, line_of};
pub use parsing::{Parsed, understand};
pub use passes::{UnknownPass, pass_named, pass_word};
pub use request::{Execution, Request, RequestFault, request_of};
