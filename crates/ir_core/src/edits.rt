//! Lists of edits of a context: each edit is a structural call with its arguments, which may name what an earlier edit of
//! the list made. An edit whose condition doesn't hold is refused, and with it the rest of the list.

mod apply;
mod arguments;
mod block_lists;
mod direct_edit;
mod edit;
mod holders;
mod listed_uses;
mod making;
mod name_lists;
mod named_edits;
mod naming;
mod operands;
mod operation_lists;
mod resolve;
mod results;
mod run;
mod shapes;
mod successors;
mod uses;

pub use edit::{At, Edit, Entity, PlaceAt, RegionAt, ValueAt};
pub use run::RunEdits;
