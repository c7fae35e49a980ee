//! What locations are printed as.
#![tactic(auto)]

mod printing;
mod words;

pub use printing::{LocationText, location_text};
