//! Texts with a section of outlined attributes, taken apart.
//!
//! Behind the root of a text the section `outlined_attributes:` says what marks `!n` in the text before it lead to.
//! [`split_outlined`] gives the text before the section, with each mark blanked so that all places stay, the marks, and
//! where the section begins.
#![tactic(auto)]

pub mod laws;
mod searching;
mod splitting;

pub use splitting::{OutlinedText, split_outlined};
