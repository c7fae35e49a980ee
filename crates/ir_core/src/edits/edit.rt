//! Edits, as they stand in a list.
use ir_names::{Identifier, TypeHandle};
use ir_program::{BasicBlock, Operation, Ptr, Region, Value};

/// What an edit made.
#[derive(Clone, Copy, Debug, PartialEq, Eq)]
pub enum Entity {
    Operation(Ptr<Operation>),
    Region(Ptr<Region>),
    Block(Ptr<BasicBlock>),
    Value(Value),
}

/// An operation or a block, as an edit names it.
#[derive(Clone, Copy, Debug, PartialEq, Eq)]
pub enum At<T> {
    /// What the handle leads to.
    Handle(T),
    /// What the edit with this number made, an earlier one of the list. Edits are numbered from 0 on.
    Made(usize),
}

/// A region, as an edit names it.
#[derive(Clone, Copy, Debug, PartialEq, Eq)]
pub enum RegionAt {
    /// What the handle leads to.
    Handle(Ptr<Region>),
    /// What the edit with this number made.
    Made(usize),
    /// The region at this index of the operation's regions.
    RegionOf(At<Ptr<Operation>>, usize),
}

/// A value, as an edit names it.
#[derive(Clone, Copy, Debug, PartialEq, Eq)]
pub enum ValueAt {
    /// This value.
    Handle(Value),
    /// What the edit with this number made.
    Made(usize),
    /// The result at this index of the operation's results.
    ResultOf(At<Ptr<Operation>>, usize),
    /// The argument at this index of the block's arguments.
    ArgumentOf(At<Ptr<BasicBlock>>, usize),
}

/// A place of an operation's operands or successors, by its index.
#[derive(Clone, Copy, Debug, PartialEq, Eq)]
pub struct PlaceAt {
    pub user_op: At<Ptr<Operation>>,
    pub index: usize,
}

/// A structural call on a context, with its arguments. `K` are the kinds of operations.
#[derive(Drop)]
pub enum Edit<K: Copy> {
    // Of operations.
    /// An operation of a kind with results of these types, these operands and successors, and so many regions.
    NewOperation {
        kind: K,
        result_types: Vec<TypeHandle>,
        operands: Vec<ValueAt>,
        successors: Vec<At<Ptr<BasicBlock>>>,
        num_regions: usize,
    },
    /// One result more, behind the others.
    PushResult(At<Ptr<Operation>>, TypeHandle),
    /// Without the last result, if there is one.
    PopResult(At<Ptr<Operation>>),
    /// One result more, at an index.
    InsertResult(At<Ptr<Operation>>, usize, TypeHandle),
    /// Without the result at an index.
    RemoveResult(At<Ptr<Operation>>, usize),
    /// One operand more, behind the others.
    PushOperand(At<Ptr<Operation>>, ValueAt),
    /// Without the last operand, if there is one.
    PopOperand(At<Ptr<Operation>>),
    /// One operand more, at an index.
    InsertOperand(At<Ptr<Operation>>, usize, ValueAt),
    /// Without the operand at an index.
    RemoveOperand(At<Ptr<Operation>>, usize),
    /// Another value in place of the operand at an index.
    ReplaceOperand(At<Ptr<Operation>>, usize, ValueAt),
    /// One successor more, behind the others.
    PushSuccessor(At<Ptr<Operation>>, At<Ptr<BasicBlock>>),
    /// Without the last successor, if there is one.
    PopSuccessor(At<Ptr<Operation>>),
    /// One successor more, at an index.
    InsertSuccessor(At<Ptr<Operation>>, usize, At<Ptr<BasicBlock>>),
    /// Without the successor at an index.
    RemoveSuccessor(At<Ptr<Operation>>, usize),
    /// Another block in place of the successor at an index.
    ReplaceSuccessor(At<Ptr<Operation>>, usize, At<Ptr<BasicBlock>>),
    /// One region more, behind the others.
    AddRegion(At<Ptr<Operation>>),
    /// The region at an index erased.
    EraseRegion(At<Ptr<Operation>>, usize),
    /// Without the operands and successors of the operation and of those inside it.
    OperationDropAllUses(At<Ptr<Operation>>),
    /// The operation erased.
    EraseOperation(At<Ptr<Operation>>),
    // Of regions.
    /// The region behind the regions of an operation.
    MoveRegionToOp(RegionAt, At<Ptr<Operation>>),
    /// Without the operands and successors of the operations inside the region.
    RegionDropAllUses(RegionAt),
    // Of blocks.
    /// A block with a label and arguments of these types.
    NewBlock {
        label: Option<Identifier>,
        argument_types: Vec<TypeHandle>,
    },
    /// One argument more, behind the others.
    PushArgument(At<Ptr<BasicBlock>>, TypeHandle),
    /// Without the last argument, if there is one.
    PopArgument(At<Ptr<BasicBlock>>),
    /// One argument more, at an index.
    InsertArgument(At<Ptr<BasicBlock>>, usize, TypeHandle),
    /// Without the argument at an index.
    RemoveArgument(At<Ptr<BasicBlock>>, usize),
    /// Without the operands and successors of the operations inside the block.
    BlockDropAllUses(At<Ptr<BasicBlock>>),
    /// The block erased.
    EraseBlock(At<Ptr<BasicBlock>>),
    /// The edges to a block lead to another, those at the places of the list.
    RetargetSomePredsTo(At<Ptr<BasicBlock>>, Vec<PlaceAt>, At<Ptr<BasicBlock>>),
    /// The edges to a block lead to another.
    RetargetAllPredsTo(At<Ptr<BasicBlock>>, At<Ptr<BasicBlock>>),
    /// The edge to a block at a place leads to another.
    RetargetPredTo(At<Ptr<BasicBlock>>, PlaceAt, At<Ptr<BasicBlock>>),
    // Of values.
    /// Another value in place of the value, at the places of the list.
    ReplaceSomeUsesWith(ValueAt, Vec<PlaceAt>, ValueAt),
    /// Another value in place of the value.
    ReplaceAllUsesWith(ValueAt, ValueAt),
    /// Another value in place of the value, at a place.
    ReplaceUseWith(ValueAt, PlaceAt, ValueAt),
    // Of lists.
    /// The first, which stands in no block, right after the second.
    InsertOperationAfter(At<Ptr<Operation>>, At<Ptr<Operation>>),
    /// The first, which stands in no block, right before the second.
    InsertOperationBefore(At<Ptr<Operation>>, At<Ptr<Operation>>),
    /// The operation, which stands in no block, before all operations of a block.
    InsertOperationAtFront(At<Ptr<Operation>>, At<Ptr<BasicBlock>>),
    /// The operation, which stands in no block, after all operations of a block.
    InsertOperationAtBack(At<Ptr<Operation>>, At<Ptr<BasicBlock>>),
    /// The operation out of the block that it stands in.
    UnlinkOperation(At<Ptr<Operation>>),
    /// The first, which stands in no region, right after the second.
    InsertBlockAfter(At<Ptr<BasicBlock>>, At<Ptr<BasicBlock>>),
    /// The first, which stands in no region, right before the second.
    InsertBlockBefore(At<Ptr<BasicBlock>>, At<Ptr<BasicBlock>>),
    /// The block, which stands in no region, before all blocks of a region.
    InsertBlockAtFront(At<Ptr<BasicBlock>>, RegionAt),
    /// The block, which stands in no region, after all blocks of a region.
    InsertBlockAtBack(At<Ptr<BasicBlock>>, RegionAt),
    /// The block out of the region that it stands in.
    UnlinkBlock(At<Ptr<BasicBlock>>),
    /// The operations of the second block behind those of the first.
    AppendOperations(At<Ptr<BasicBlock>>, At<Ptr<BasicBlock>>),
    /// The blocks of the second region behind those of the first.
    AppendBlocks(RegionAt, RegionAt),
}
