//! Tests of builtin attributes.
#![tactic(auto)]

#[cfg(test)]
mod dicts;
#[cfg(test)]
mod integers;
