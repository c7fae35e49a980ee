//! Tests of the optimisations as passes by their public calls, on a dialect whose operations carry a number and nothing else.
#![tactic(auto)]

#[cfg(test)]
mod building;
#[cfg(test)]
mod running;
