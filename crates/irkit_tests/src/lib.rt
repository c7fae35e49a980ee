//! Tests of `irkit_driver` and of the crates below it by their public calls. They stand here so that each of those is
//! proved once. What is tested is what no clause says and no case of `tests/texts` can: streams that give and take little,
//! command lines with their statuses, and calls that the program doesn't make.
//!
//! What the proof of a function costs grows with its exits times the large values that it owns there. So a function
//! that owns some answers by one expression, and a test, which has an exit at each assertion, owns none.
#![tactic(auto)]

#[cfg(test)]
mod calls;
#[cfg(test)]
mod command_line;
#[cfg(test)]
mod fakes;
#[cfg(test)]
mod grammars;
#[cfg(test)]
mod loading;
#[cfg(test)]
mod numbers;
#[cfg(test)]
mod reports;
#[cfg(test)]
mod streams;
