//! The section of outlined attributes, read from a text.
#![tactic(auto)]

mod entries;
mod members;
mod names;
mod parsing;
mod sections;
mod signs;

pub use sections::outlined_attributes;
