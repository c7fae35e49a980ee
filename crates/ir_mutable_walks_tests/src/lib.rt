//! Callers of walks that change what they go over, proved as callers are, and tests of their orders and limits.
#![tactic(auto)]

pub mod callers;
#[cfg(test)]
mod modules;
#[cfg(test)]
mod orders;
