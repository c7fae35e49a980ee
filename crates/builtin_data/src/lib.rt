//! Types and attributes that any dialect may put into its own: integers with their types, functions' types, names, texts,
//! lists and dictionaries.
#![tactic(auto)]

mod dicts;
mod integers;
mod lists;
mod single;
mod types;

pub use dicts::DictAttr;
pub use integers::IntegerAttr;
pub use lists::{GivenNamesAttr, OperandSegmentSizesAttr, VecAttr};
pub use single::{BoolAttr, IdentifierAttr, StringAttr, TypeAttr, UnitAttr};
pub use types::{FunctionType, IntegerType, UnitType};
