//! Taking the locations away from an operation and from all that stands in it.
#![tactic(auto)]

mod erasing;

pub use erasing::erase_locations;
