//! Edits of the lists of blocks.
ghost use Rattle.std.specs.Prelude.{◌↔◌, IsSome, IsTrue};
ghost use Rattle.ir_program.specs.Program.{operation_at};
ghost use Rattle.ir_program.specs.Lists.{IsUnlinkedOperation};
ghost use Rattle.ir_core.specs.edits.OperationListEdits.{AnswersInsertOperationAfter, AnswersInsertOperationBefore, AnswersInsertOperationAtFront, AnswersInsertOperationAtBack, AnswersUnlinkOperation, AnswersAppendOperations};

use crate::edits::Entity;
use ir_context::{
    BlockCalls, ContainsOperations, CoreError, OperationCalls, OperationLists, TypeTable,
    TypedProgram,
};
use ir_program::{BasicBlock, IRNode, Operation, Ptr};

/// Puts an operation right after another.
pub fn insert_operation_after<O, B, T: TypeTable>(
    ctx: &mut TypedProgram<O, B, T>,
    op: Ptr<Operation>,
    mark: Ptr<Operation>,
) -> Result<Option<Entity>, CoreError>
    ensures { AnswersInsertOperationAfter ctx.old op mark ctx.new result }
{
    if !can_stand(ctx, op) || !mark.is_live(ctx) || !mark.is_linked(ctx) {
        return Err(CoreError::EditNotAllowed);
    }
    if ctx.is_inside(IRNode::Operation(mark), IRNode::Operation(op)) {
        return Err(CoreError::EditNotAllowed);
    }
    op.insert_after(ctx, mark);
    Ok(None)
}

/// Puts an operation right before another.
pub fn insert_operation_before<O, B, T: TypeTable>(
    ctx: &mut TypedProgram<O, B, T>,
    op: Ptr<Operation>,
    mark: Ptr<Operation>,
) -> Result<Option<Entity>, CoreError>
    ensures { AnswersInsertOperationBefore ctx.old op mark ctx.new result }
{
    if !can_stand(ctx, op) || !mark.is_live(ctx) || !mark.is_linked(ctx) {
        return Err(CoreError::EditNotAllowed);
    }
    if ctx.is_inside(IRNode::Operation(mark), IRNode::Operation(op)) {
        return Err(CoreError::EditNotAllowed);
    }
    op.insert_before(ctx, mark);
    Ok(None)
}

/// Puts an operation first in a block.
pub fn insert_operation_at_front<O, B, T: TypeTable>(
    ctx: &mut TypedProgram<O, B, T>,
    op: Ptr<Operation>,
    block: Ptr<BasicBlock>,
) -> Result<Option<Entity>, CoreError>
    ensures { AnswersInsertOperationAtFront ctx.old op block ctx.new result }
{
    if !can_stand(ctx, op) || !block.is_live(ctx) {
        return Err(CoreError::EditNotAllowed);
    }
    if ctx.is_inside(IRNode::BasicBlock(block), IRNode::Operation(op)) {
        return Err(CoreError::EditNotAllowed);
    }
    op.insert_at_front(ctx, block);
    Ok(None)
}

/// Puts an operation last in a block.
pub fn insert_operation_at_back<O, B, T: TypeTable>(
    ctx: &mut TypedProgram<O, B, T>,
    op: Ptr<Operation>,
    block: Ptr<BasicBlock>,
) -> Result<Option<Entity>, CoreError>
    ensures { AnswersInsertOperationAtBack ctx.old op block ctx.new result }
{
    if !can_stand(ctx, op) || !block.is_live(ctx) {
        return Err(CoreError::EditNotAllowed);
    }
    if ctx.is_inside(IRNode::BasicBlock(block), IRNode::Operation(op)) {
        return Err(CoreError::EditNotAllowed);
    }
    op.insert_at_back(ctx, block);
    Ok(None)
}

/// Takes an operation out of its block.
pub fn unlink_operation<O, B, T: TypeTable>(
    ctx: &mut TypedProgram<O, B, T>,
    op: Ptr<Operation>,
) -> Result<Option<Entity>, CoreError>
    ensures { AnswersUnlinkOperation ctx.old op ctx.new result }
{
    if !op.is_live(ctx) || !op.is_linked(ctx) {
        return Err(CoreError::EditNotAllowed);
    }
    op.unlink(ctx);
    Ok(None)
}

/// Moves the operations of one block behind those of another.
#[tactic(auto, using(crate::proofs::EditsLemmas::Asked::block_elsewhere))]
pub fn append_operations<O, B, T: TypeTable>(
    ctx: &mut TypedProgram<O, B, T>,
    donee: Ptr<BasicBlock>,
    donor: Ptr<BasicBlock>,
) -> Result<Option<Entity>, CoreError>
    ensures { AnswersAppendOperations ctx.old donee donor ctx.new result }
{
    if !donee.is_live(ctx) || !donor.is_live(ctx) {
        return Err(CoreError::EditNotAllowed);
    }
    let (inner, outer) = (IRNode::BasicBlock(donee), IRNode::BasicBlock(donor));
    if ctx.is_inside(inner, outer) || ctx.is_inside(outer, inner) {
        return Err(CoreError::EditNotAllowed);
    }
    donee.append_linked_list(ctx, donor);
    Ok(None)
}

/// Whether the operation is there and stands in no block, so that it may be put into one.
fn can_stand<O, B, T: TypeTable>(ctx: &TypedProgram<O, B, T>, op: Ptr<Operation>) -> bool
    ensures { IsTrue result ↔ (IsSome (operation_at ctx.now.program op) × IsUnlinkedOperation ctx.now.program op) }
{
    op.is_live(ctx) && !op.is_linked(ctx)
}
