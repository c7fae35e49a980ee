//! `irkit` on texts with marks and a section of outlined attributes.
//!
//! A text is read in two parts: its operations without their marks, which `irkit_driver` reads, optimises, runs and writes, and
//! what stands beside them: the names of values, notes and origins. What stands beside an operation or a block goes where that
//! goes, and is written behind it again.
//!
//! - [`load`] reads a module with what stands beside its items, and [`with_outlines`] puts that into its text again.
//! - [`optimised`] gives the text of a module after passes.
//! - [`serve`] makes the call that a request asks for, and [`drive`] is the program on its words.
#![tactic(auto)]

mod ends;
mod items;
mod marks;
mod outlines;
mod reading;
mod rules;
mod sections;
mod serving;
mod source;
mod writing;

pub use outlines::{OutlinedModule, Outlines};
pub use reading::{has_outlines, load};
pub use serving::{OptimisedText, drive, optimised, serve};
pub use writing::with_outlines;
