//! Where a rewriter puts operations.

use ir_program::{BasicBlock, Operation, Ptr};

/// A place in the list of a block's operations.
#[derive(Clone, Copy, Debug, PartialEq, Eq, Default)]
pub enum OpInsertionPoint {
    /// Nowhere.
    #[default]
    Unset,
    /// Before all operations of the block.
    AtBlockStart(Ptr<BasicBlock>),
    /// Behind all operations of the block.
    AtBlockEnd(Ptr<BasicBlock>),
    /// Right before the operation.
    BeforeOperation(Ptr<Operation>),
    /// Right after the operation.
    AfterOperation(Ptr<Operation>),
}
