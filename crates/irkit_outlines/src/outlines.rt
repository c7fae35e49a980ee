//! What stands beside the items of a module.
use indexmap::IndexMap;
use ir_names::Identifier;
use ir_program::{BasicBlock, Operation, Ptr};
use outlined_writing::Beside;

/// What stands beside the operations and blocks of a module, and the names of its values.
#[derive(Drop)]
pub struct Outlines {
    pub(crate) beside: Vec<Beside>,
    pub(crate) operations: IndexMap<Ptr<Operation>, usize>,
    pub(crate) blocks: IndexMap<Ptr<BasicBlock>, usize>,
    /// The name of the value with each number, if it was given one.
    pub(crate) names: Vec<Option<Identifier>>,
}

/// A module of a context with what stands beside its items.
#[derive(Drop)]
pub struct OutlinedModule {
    pub root: Ptr<Operation>,
    pub outlines: Outlines,
}
