//! Symbol tables: operations by their names, kept in step with the block that holds them.
#![tactic(auto)]

mod bodies;
mod collections;
mod contents;
mod errors;
mod names;
mod nearest;
mod payload;
mod placing;
mod scanning;
mod tables;
mod walking;

pub use bodies::single_block;
pub use collections::SymbolTableCollection;
pub use errors::SymbolTableErr;
pub use nearest::{lookup_symbol, nearest_symbol_table, scan};
pub use payload::SymbolPayload;
pub use tables::SymbolTable;
pub use walking::walk_symbol_table;
