//! Locations, read from texts.
#![tactic(auto)]

mod firsts;
mod locations;
mod places;
mod tokens;

pub use locations::{location, location_by};
