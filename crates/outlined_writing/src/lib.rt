//! A printed module with what its bare text leaves out: given names of values, marks of operations and blocks, and the section of outlined
//! attributes.
#![tactic(auto)]

mod entries;
mod lines;
mod names;
mod outlining;
mod section;
mod words;

pub use entries::Beside;
pub use outlining::outlined_text;
