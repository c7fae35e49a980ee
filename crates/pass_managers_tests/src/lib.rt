//! Tests of managers of passes by their public calls, on a dialect whose operations carry a number and nothing else.
#![tactic(auto)]

#[cfg(test)]
mod building;
#[cfg(test)]
mod counting;
pub mod items;
pub mod tally;
