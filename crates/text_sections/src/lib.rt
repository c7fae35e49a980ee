//! The section of outlined attributes: what is printed behind a root, for its operations and blocks with marks.
#![tactic(auto)]

mod entries;
mod marks;
mod once;
mod printing;
mod section;
mod words;

pub use once::PrintOnce;
pub use section::Section;
