//! Texts with marks: a text apart from its marks, and marks put into a text.
//!
//! [`take_marks`] gives the bare text, in which each mark is blanked by spaces so that all places stay, and the marks with
//! their places. [`put_marks`] puts marks into a bare text.
#![tactic(auto)]

pub mod laws;
mod putting;
mod taking;

pub use putting::put_marks;
pub use taking::{Mark, MarkedText, take_marks};
