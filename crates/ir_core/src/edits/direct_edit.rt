//! Edits of what is there.
use ir_names::TypeHandle;
use ir_program::{BasicBlock, IRNode, Operation, Ptr, Region, Value};

/// A structural call on a context with its arguments, where what the names of an edit stand for is known. Edits with lists
/// are not among them: their lists keep their names.
#[derive(Clone, Copy)]
pub enum DirectEdit {
    // Of results.
    /// One result more, behind the others.
    PushResult(Ptr<Operation>, TypeHandle),
    /// Without the last result, if there is one.
    PopResult(Ptr<Operation>),
    /// One result more, at an index.
    InsertResult(Ptr<Operation>, usize, TypeHandle),
    /// Without the result at an index.
    RemoveResult(Ptr<Operation>, usize),
    // Of arguments.
    /// One argument more, behind the others.
    PushArgument(Ptr<BasicBlock>, TypeHandle),
    /// Without the last argument, if there is one.
    PopArgument(Ptr<BasicBlock>),
    /// One argument more, at an index.
    InsertArgument(Ptr<BasicBlock>, usize, TypeHandle),
    /// Without the argument at an index.
    RemoveArgument(Ptr<BasicBlock>, usize),
    // Of operands.
    /// One operand more, behind the others.
    PushOperand(Ptr<Operation>, Value),
    /// Without the last operand, if there is one.
    PopOperand(Ptr<Operation>),
    /// One operand more, at an index.
    InsertOperand(Ptr<Operation>, usize, Value),
    /// Without the operand at an index.
    RemoveOperand(Ptr<Operation>, usize),
    /// Another value in place of the operand at an index.
    ReplaceOperand(Ptr<Operation>, usize, Value),
    // Of successors.
    /// One successor more, behind the others.
    PushSuccessor(Ptr<Operation>, Ptr<BasicBlock>),
    /// Without the last successor, if there is one.
    PopSuccessor(Ptr<Operation>),
    /// One successor more, at an index.
    InsertSuccessor(Ptr<Operation>, usize, Ptr<BasicBlock>),
    /// Without the successor at an index.
    RemoveSuccessor(Ptr<Operation>, usize),
    /// Another block in place of the successor at an index.
    ReplaceSuccessor(Ptr<Operation>, usize, Ptr<BasicBlock>),
    // Of regions, of erasing and of dropping uses.
    /// One region more, behind the others.
    AddRegion(Ptr<Operation>),
    /// The region at an index erased.
    EraseRegion(Ptr<Operation>, usize),
    /// The operation erased.
    EraseOperation(Ptr<Operation>),
    /// The block erased.
    EraseBlock(Ptr<BasicBlock>),
    /// The region behind the regions of an operation.
    MoveRegionToOp(Ptr<Region>, Ptr<Operation>),
    /// Without the operands and successors of all operations inside an entity.
    DropAllUses(IRNode),
    // Of the lists of blocks.
    /// The first right after the second.
    InsertOperationAfter(Ptr<Operation>, Ptr<Operation>),
    /// The first right before the second.
    InsertOperationBefore(Ptr<Operation>, Ptr<Operation>),
    /// The operation before all operations of a block.
    InsertOperationAtFront(Ptr<Operation>, Ptr<BasicBlock>),
    /// The operation after all operations of a block.
    InsertOperationAtBack(Ptr<Operation>, Ptr<BasicBlock>),
    /// The operation out of its block.
    UnlinkOperation(Ptr<Operation>),
    /// The operations of the second block behind those of the first.
    AppendOperations(Ptr<BasicBlock>, Ptr<BasicBlock>),
    // Of the lists of regions.
    /// The first right after the second.
    InsertBlockAfter(Ptr<BasicBlock>, Ptr<BasicBlock>),
    /// The first right before the second.
    InsertBlockBefore(Ptr<BasicBlock>, Ptr<BasicBlock>),
    /// The block before all blocks of a region.
    InsertBlockAtFront(Ptr<BasicBlock>, Ptr<Region>),
    /// The block after all blocks of a region.
    InsertBlockAtBack(Ptr<BasicBlock>, Ptr<Region>),
    /// The block out of its region.
    UnlinkBlock(Ptr<BasicBlock>),
    /// The blocks of the second region behind those of the first.
    AppendBlocks(Ptr<Region>, Ptr<Region>),
    // Of uses.
    /// Another value in place of the value.
    ReplaceAllUsesWith(Value, Value),
    /// Another value in place of the value, at one place.
    ReplaceUseWith(Value, Ptr<Operation>, usize, Value),
    /// The edges to a block lead to another.
    RetargetAllPredsTo(Ptr<BasicBlock>, Ptr<BasicBlock>),
    /// The edge to a block at one place leads to another.
    RetargetPredTo(Ptr<BasicBlock>, Ptr<Operation>, usize, Ptr<BasicBlock>),
}
