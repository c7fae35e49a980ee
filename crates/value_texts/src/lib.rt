//! Types and attributes at the front of a text, read by their formats.
//!
//! What makes values of their parts is a [`ValueMaker`]. [`value_parse`] reads one value from a stream.
#![tactic(auto)]

mod deciding;
mod kinds;
mod maker;
mod progress;
mod steps;
mod values;

pub use maker::{Refusal, ValueMaker};
pub use values::value_parse;
