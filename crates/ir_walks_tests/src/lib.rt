//! Tests of walks by their public calls: the orders of a module of three levels, what is skipped, and where a walk
//! breaks off.
#![tactic(auto)]

#[cfg(test)]
mod modules;
#[cfg(test)]
mod orders;
