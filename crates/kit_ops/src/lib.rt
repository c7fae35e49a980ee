//! The types, attributes and kinds of operations of the dialect `kit`, with a table of what each kind is; and its passes.
#![tactic(auto)]

mod arithmetic;
mod attributes;
mod kinds;
mod pass;
mod table;
mod types;

pub use arithmetic::{Arithmetic, Comparison};
pub use attributes::{IntegerAttr, KitAttr, KitAttrKind, KitLocation, keys};
pub use kinds::KitOp;
pub use pass::KitPass;
pub use table::{Count, Row};
pub use types::{FunctionType, IntegerType, KitType, KitTypeKind};
