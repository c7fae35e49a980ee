//! Tests of the optimisations on programs of a small dialect: that calls succeed where memory is ample, and worked examples
//! of what they make.
#![tactic(auto)]

#[cfg(test)]
mod asserting;
#[cfg(test)]
mod constants;
#[cfg(test)]
mod dead;
#[cfg(test)]
mod flow;
#[cfg(test)]
mod little;
#[cfg(test)]
mod numbers;
#[cfg(test)]
mod phases;
#[cfg(test)]
mod places;
#[cfg(test)]
mod playing;
