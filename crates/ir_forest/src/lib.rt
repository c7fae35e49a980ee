//! What a text says, by its events: the trees that they build, and what these mean. Definitions, and laws of them ([`laws`]).
#![tactic(auto)]

pub mod laws;
