//! Laws of texts over contexts: the trees of texts are closed, and what is printed of operations is read again.
#![tactic(auto)]

pub mod laws;
mod names;

pub use names::know_small_numbers;
