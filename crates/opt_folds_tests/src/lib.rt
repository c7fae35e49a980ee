//! Tests of folds of single operations, on programs of a small dialect.
#![tactic(auto)]

#[cfg(test)]
mod folding;
