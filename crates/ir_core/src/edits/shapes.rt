//! What edits do to what they name, by how much they name.
ghost use Rattle.std.specs.Prelude.{◌≡◌};
ghost use Rattle.ir_core.specs.edits.Shapes.{operation_edit, block_edit, operand_edit, edge_edit, operations_edit, blocks_edit, region_edit};

use crate::edits::direct_edit::DirectEdit;
use ir_names::TypeHandle;
use ir_program::{BasicBlock, IRNode, Operation, Ptr, Region, Value};

/// What an edit does to an operation alone.
#[derive(Clone, Copy)]
pub enum OperationEdit {
    /// One result more, behind the others.
    PushResult(TypeHandle),
    /// Without the last result.
    PopResult,
    /// One result more, at an index.
    InsertResult(usize, TypeHandle),
    /// Without the result at an index.
    RemoveResult(usize),
    /// Without the last operand.
    PopOperand,
    /// Without the operand at an index.
    RemoveOperand(usize),
    /// Without the last successor.
    PopSuccessor,
    /// Without the successor at an index.
    RemoveSuccessor(usize),
    /// One region more, behind the others.
    AddRegion,
    /// The region at an index erased.
    EraseRegion(usize),
    /// Erased.
    Erase,
    /// Without the operands and successors of all operations inside it.
    DropAllUses,
    /// Out of its block.
    Unlink,
}

/// What an edit does to a block alone.
#[derive(Clone, Copy)]
pub enum BlockEdit {
    /// One argument more, behind the others.
    PushArgument(TypeHandle),
    /// Without the last argument.
    PopArgument,
    /// One argument more, at an index.
    InsertArgument(usize, TypeHandle),
    /// Without the argument at an index.
    RemoveArgument(usize),
    /// Erased.
    Erase,
    /// Without the operands and successors of all operations inside it.
    DropAllUses,
    /// Out of its region.
    Unlink,
}

/// What an edit does to the operands of an operation, with a value.
#[derive(Clone, Copy)]
pub enum OperandEdit {
    /// The value behind the operands.
    Push,
    /// The value at an index, between the operands.
    Insert(usize),
    /// The value in place of the operand at an index.
    Replace(usize),
}

/// What an edit does to an operation and a block.
#[derive(Clone, Copy)]
pub enum EdgeEdit {
    /// The block behind the successors.
    PushSuccessor,
    /// The block at an index, between the successors.
    InsertSuccessor(usize),
    /// The block in place of the successor at an index.
    ReplaceSuccessor(usize),
    /// The operation before all operations of the block.
    InsertAtFront,
    /// The operation after all operations of the block.
    InsertAtBack,
}

/// On which side of an operation another is put.
#[derive(Clone, Copy)]
pub enum Side {
    /// Right after it.
    After,
    /// Right before it.
    Before,
}

/// What an edit does to two blocks.
#[derive(Clone, Copy)]
pub enum BlocksEdit {
    /// The first right after the second.
    InsertAfter,
    /// The first right before the second.
    InsertBefore,
    /// The operations of the second behind those of the first.
    AppendOperations,
    /// The edges to the first lead to the second.
    RetargetAll,
}

/// At which end of a region a block is put.
#[derive(Clone, Copy)]
pub enum End {
    /// Before all its blocks.
    Front,
    /// After all its blocks.
    Back,
}

/// The edit of this operation.
pub fn operation_edit(op: Ptr<Operation>, edit: OperationEdit) -> DirectEdit
    ensures { result ≡ operation_edit edit op }
{
    match edit {
        OperationEdit::PushResult(ty) => DirectEdit::PushResult(op, ty),
        OperationEdit::PopResult => DirectEdit::PopResult(op),
        OperationEdit::InsertResult(index, ty) => DirectEdit::InsertResult(op, index, ty),
        OperationEdit::RemoveResult(index) => DirectEdit::RemoveResult(op, index),
        OperationEdit::PopOperand => DirectEdit::PopOperand(op),
        OperationEdit::RemoveOperand(index) => DirectEdit::RemoveOperand(op, index),
        OperationEdit::PopSuccessor => DirectEdit::PopSuccessor(op),
        OperationEdit::RemoveSuccessor(index) => DirectEdit::RemoveSuccessor(op, index),
        OperationEdit::AddRegion => DirectEdit::AddRegion(op),
        OperationEdit::EraseRegion(index) => DirectEdit::EraseRegion(op, index),
        OperationEdit::Erase => DirectEdit::EraseOperation(op),
        OperationEdit::DropAllUses => DirectEdit::DropAllUses(IRNode::Operation(op)),
        OperationEdit::Unlink => DirectEdit::UnlinkOperation(op),
    }
}

/// The edit of this block.
pub fn block_edit(block: Ptr<BasicBlock>, edit: BlockEdit) -> DirectEdit
    ensures { result ≡ block_edit edit block }
{
    match edit {
        BlockEdit::PushArgument(ty) => DirectEdit::PushArgument(block, ty),
        BlockEdit::PopArgument => DirectEdit::PopArgument(block),
        BlockEdit::InsertArgument(index, ty) => DirectEdit::InsertArgument(block, index, ty),
        BlockEdit::RemoveArgument(index) => DirectEdit::RemoveArgument(block, index),
        BlockEdit::Erase => DirectEdit::EraseBlock(block),
        BlockEdit::DropAllUses => DirectEdit::DropAllUses(IRNode::BasicBlock(block)),
        BlockEdit::Unlink => DirectEdit::UnlinkBlock(block),
    }
}

/// The edit of this operation's operands, with this value.
pub fn operand_edit(op: Ptr<Operation>, value: Value, edit: OperandEdit) -> DirectEdit
    ensures { result ≡ operand_edit edit op value }
{
    match edit {
        OperandEdit::Push => DirectEdit::PushOperand(op, value),
        OperandEdit::Insert(index) => DirectEdit::InsertOperand(op, index, value),
        OperandEdit::Replace(index) => DirectEdit::ReplaceOperand(op, index, value),
    }
}

/// The edit of this operation and this block.
pub fn edge_edit(op: Ptr<Operation>, block: Ptr<BasicBlock>, edit: EdgeEdit) -> DirectEdit
    ensures { result ≡ edge_edit edit op block }
{
    match edit {
        EdgeEdit::PushSuccessor => DirectEdit::PushSuccessor(op, block),
        EdgeEdit::InsertSuccessor(index) => DirectEdit::InsertSuccessor(op, index, block),
        EdgeEdit::ReplaceSuccessor(index) => DirectEdit::ReplaceSuccessor(op, index, block),
        EdgeEdit::InsertAtFront => DirectEdit::InsertOperationAtFront(op, block),
        EdgeEdit::InsertAtBack => DirectEdit::InsertOperationAtBack(op, block),
    }
}

/// The edit that puts this operation beside the other.
pub fn operations_edit(op: Ptr<Operation>, mark: Ptr<Operation>, side: Side) -> DirectEdit
    ensures { result ≡ operations_edit side op mark }
{
    match side {
        Side::After => DirectEdit::InsertOperationAfter(op, mark),
        Side::Before => DirectEdit::InsertOperationBefore(op, mark),
    }
}

/// The edit of these two blocks.
pub fn blocks_edit(block: Ptr<BasicBlock>, other: Ptr<BasicBlock>, edit: BlocksEdit) -> DirectEdit
    ensures { result ≡ blocks_edit edit block other }
{
    match edit {
        BlocksEdit::InsertAfter => DirectEdit::InsertBlockAfter(block, other),
        BlocksEdit::InsertBefore => DirectEdit::InsertBlockBefore(block, other),
        BlocksEdit::AppendOperations => DirectEdit::AppendOperations(block, other),
        BlocksEdit::RetargetAll => DirectEdit::RetargetAllPredsTo(block, other),
    }
}

/// The edit that puts this block at an end of the region.
pub fn region_edit(block: Ptr<BasicBlock>, region: Ptr<Region>, end: End) -> DirectEdit
    ensures { result ≡ region_edit end block region }
{
    match end {
        End::Front => DirectEdit::InsertBlockAtFront(block, region),
        End::Back => DirectEdit::InsertBlockAtBack(block, region),
    }
}
