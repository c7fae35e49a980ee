//! The context of a dialect: its operations, regions, blocks and values, with their attributes,
//! locations and types, and the calls on them.
#![tactic(auto, using(crate::proofs::KnownTypes::kept_types, crate::proofs::KnownTypes::kept_known))]

mod arguments;
mod block_lists;
mod blocks;
mod changes;
mod containers;
mod context;
mod erasing;
mod erasing_calls;
mod errors;
mod lending;
mod making;
mod notes;
mod operands;
mod operation_lists;
mod operations;
mod parents;
mod plain;
mod regions;
mod results;
mod successors;
mod type_table;
mod types;
mod uses;
mod values;

pub use arguments::ArgumentCalls;
pub use block_lists::BlockLists;
pub use blocks::BlockCalls;
pub use changes::{BlockChanges, OperationChanges};
pub use containers::{ContainsBlocks, ContainsOperations};
pub use context::{Context, TypedProgram};
pub use erasing_calls::{BlockErasing, OperationErasing, RegionErasing};
pub use errors::{
    AttrInterfaceCastErr, CoreError, DanglingPtrDerefError, DefUseVerifyErr, ValueError,
};
pub use notes::{BlockNotes, OperationData, OperationNotes};
pub use operands::OperandCalls;
pub use operation_lists::OperationLists;
pub use operations::OperationCalls;
pub use plain::{NewBlock, NewOperation};
pub use regions::{RegionCalls, RegionRecord};
pub use results::ResultCalls;
pub use successors::SuccessorCalls;
pub use type_table::TypeTable;
pub use types::TypeCalls;
pub use uses::{PredecessorCalls, UseCalls};
pub use values::ValueCalls;
