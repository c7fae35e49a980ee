//! What a dialect says of its kinds, and the types of a context, each interned once.
#![tactic(auto)]

mod dialect;
mod errors;
mod saved;
mod types;

pub use dialect::DialectTables;
pub use errors::{TypeInterfaceHandleErr, TypedHandleErr};
pub use saved::SavedKey;
pub use types::Types;
