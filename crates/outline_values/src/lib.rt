//! The attributes of a section of outlined attributes, read from a text.
#![tactic(auto)]

mod attributes;
mod faults;
mod integers;
mod names;
mod signs;
mod texts;
mod tokens;
mod types;
mod values;

pub use values::{OutlinedValue, outlined_value};
