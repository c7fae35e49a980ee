//! Tests of interfaces of operations by their public calls: ranges, and what an operation with given rows is accepted by.
#![tactic(auto)]

#[cfg(test)]
mod ranges;
#[cfg(test)]
mod rows;
