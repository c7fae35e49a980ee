//! What a dialect says of its texts, on the contexts in which programs stand.
//!
//! A dialect says of each kind of operation, type and attribute how its text is made, as a list of
//! directives; printing and reading both follow these lists, and know no dialect.
#![tactic(auto)]

mod dialect;
mod formats;

pub use dialect::{MakeFault, OperationDraft, TextDialect};
pub use formats::{DialectGrammar, PartTable, ReadDialect, grammar_of, resolve, table_of};
