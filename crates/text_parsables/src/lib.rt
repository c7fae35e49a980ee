//! Values that are read from a stream of characters by one call.
#![tactic(auto)]

mod names;
mod numbers;
mod optional;
mod parsable;
mod texts;
mod whole;

pub use parsable::Parsable;
pub use whole::parse_whole;
