//! Tests of `check_format`: which formats it accepts and which it refuses.
#![tactic(auto)]

#[cfg(test)]
mod accepted;
#[cfg(test)]
mod refused;
