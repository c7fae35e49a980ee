//! Numbered problems of the three optimisations, which know no IR, and what solvers note of them.
#![tactic(auto)]

mod chains;
mod dead_candidates;
mod dead_problem;
mod edge_list;
mod facts_found;
mod facts_problem;
mod facts_taken;
mod known;
mod linked_rows;
mod number_rows;
mod operation_rows;

pub use chains::ChainBlock;
pub use dead_candidates::Candidates;
pub use dead_problem::{Argument, DeadItems, DeadProblem, Definer, Operand};
pub use edge_list::EdgeList;
pub use facts_found::Found;
pub use facts_problem::{FactsProblem, Folding, Role};
pub use facts_taken::Taken;
pub use known::{Known, fall, of_answer};
pub use linked_rows::{LinkedRows, RowItems};
pub use number_rows::{NumberRows, start_of};
pub use operation_rows::{OperationRows, RowBuffer};
