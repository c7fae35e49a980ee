//! Interfaces of operations that hold symbol tables, and of those that use symbols; and the interface of operands in a segment
//! whose types implement another.
#![tactic(auto)]

mod segment_types;
mod symbol_tables;
mod symbol_users;
mod used_symbols;

pub use segment_types::{SegmentNImplsTy, SegmentNImplsTyErr};
pub use symbol_tables::{SymbolTableInterface, SymbolTableInterfaceErr};
pub use symbol_users::{SymbolUserOpInterface, SymbolUserOpInterfaceErr};
