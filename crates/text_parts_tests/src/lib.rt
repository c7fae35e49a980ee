//! Tests of the parts of the text layer's face by their public calls.
#![tactic(auto)]

#[cfg(test)]
mod errors;
#[cfg(test)]
mod lists;
#[cfg(test)]
mod locations;
#[cfg(test)]
mod streams;
#[cfg(test)]
mod writers;
