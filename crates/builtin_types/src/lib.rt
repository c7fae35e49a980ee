//! Builtin types of any dialect, each got of a context by what it is made of.
#![tactic(auto)]

mod dialect;
mod functions;
mod integers;
mod units;

pub use dialect::BuiltinTypes;
pub use functions::GetFunctionType;
pub use integers::GetIntegerType;
pub use units::GetUnitType;
