//! What a text becomes in a context.
use crate::waiting::WaitingOperands;
use ir_program::{BasicBlock, IRNode, Operation, Ptr, Value};

/// What a text has become, but for the operands and successors of its operations.
#[derive(Drop)]
pub struct Assembly {
    /// The operation that is the text, if it was read whole.
    pub root: Option<Ptr<Operation>>,
    /// The value of each definition, in the order of the text.
    pub values: Vec<Option<Value>>,
    /// The blocks that are made, in the order of the text.
    pub blocks: Vec<Ptr<BasicBlock>>,
    /// The operands and successors of each operation, in the order in which operations end.
    pub pending: WaitingOperands,
    /// What is in no list: the blocks of regions that aren't ended, the outer ones first, or the root.
    pub loose: Vec<IRNode>,
}
