//! Marks: the numbers that stand in a text for attributes that are said elsewhere.
#![tactic(auto)]

mod marks;

pub use marks::{MarkOr, OUTLINED_ATTR_MARKER, is_at_mark, mark_parse, outlined_marker_or};
