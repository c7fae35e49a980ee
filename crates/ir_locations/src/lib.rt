//! Where operations and blocks come from.
#![tactic(auto)]

mod found;
mod location;
mod source;

pub use location::Location;
pub use source::Source;
