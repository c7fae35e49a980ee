//! What the three optimisations make of trees that mean the same.
#![tactic(auto)]

mod laws;

pub use laws::{meanings_are_made, same_trees_are_made, words_are_made};
