//! What is asked of a context beyond one place at a time: whole rows, uses, edges and indices; what values and blocks are
//! called; types and attributes by what they are; and what stands around an operation or a block: the nearest of the
//! operations and blocks that hold it of which something holds, and which of two operations comes first in their block.
//! What is asked about what stands around asks for no memory, and nesting may be of any depth: each such question climbs
//! from holder to holder in a loop.
#![tactic(auto)]

mod blocks;
mod edges;
mod finding;
mod given;
mod handles;
mod holders;
mod kinds;
mod lookups;
mod markers;
mod named;
mod nearest;
mod objects;
mod operations;
mod order;
mod places;
mod predecessors;
mod regions;
mod rows;
mod signatures;
mod tables;
mod typed;
mod types;
mod uniqued;
mod uses;
mod values;
mod writing;

pub use blocks::{find_ancestor_block_of_block_in_region, find_ancestor_block_of_op_in_region};
pub use edges::BlockEdges;
pub use handles::{TypeInterfaceHandle, TypedHandle};
pub use holders::{find_ancestor_op_of_op_in_block, find_ancestor_op_of_op_in_region};
pub use ir_context::{DefUseVerifyErr, ValueError};
pub use kinds::{find_ancestor_of_op_interface, find_ancestor_of_op_type};
pub use lookups::AttributeLookups;
pub use markers::{
    AttrInterfaceMarker, AttrMarker, OpInterfaceMarker, OpMarker, TypeInterfaceMarker, TypeMarker,
};
pub use named::{Named, know_unique_names};
pub use objects::OpObj;
pub use operations::OperationRows;
pub use order::strictly_precedes_in_block;
pub use places::{OperandPlace, SuccessorPlace};
pub use regions::RegionOrder;
pub use signatures::TypeSig;
pub use tables::{
    attr_impls, attr_should_outline, attr_type, op_impls, op_impls_static, type_impls,
};
pub use typed::Typed;
pub use types::{Instantiate, Type};
pub use uniqued::{Uniqued, UniquedKey};
pub use values::ValueUses;
