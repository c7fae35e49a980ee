//! Tests of sections by their public calls.
#![tactic(auto)]

pub mod saids;
#[cfg(test)]
mod sections;
