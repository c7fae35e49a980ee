//! Tests of reading values, with a language of their own, whose parts are numbers.
#![tactic(auto)]

pub mod counts;
#[cfg(test)]
mod values;
