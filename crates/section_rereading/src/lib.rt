//! Laws of sections ([`laws`]): what is printed of a section of outlined attributes is read as the same section.
#![tactic(auto)]

pub mod laws;
