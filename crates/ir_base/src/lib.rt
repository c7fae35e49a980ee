//! What the store and the names both speak of: why nothing was made, and a type by its number.
#![tactic(auto)]

mod growth;
mod types;

pub use growth::GrowError;
pub use types::TypeHandle;
