//! Formats of operations, types and attributes as data, and the layout of a text.
//!
//! A dialect says of each kind of operation, type and attribute how its text is made, as a list of
//! directives; printing and reading both follow these lists, and know no dialect.
#![tactic(auto)]

mod format;

pub use format::{Directive, LeafSort, LeafValue, Number, Part, ValueSort};
