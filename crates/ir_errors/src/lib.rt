//! Errors of texts, of verifying and of arguments, with the location that they are about.
#![tactic(auto)]

mod error;
mod macros;

pub use error::{Error, ErrorKind, Result, StringError, error_of_text};
pub use ir_locations::Location;
