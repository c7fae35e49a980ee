//! Edits of the uses of values and of the edges to blocks.
ghost use Rattle.std.specs.Prelude.{◌≡◌, ◌↔◌, Some, IsTrue, slice_get};
ghost use Rattle.ir_program.specs.Rows.{operands_at, successors_at};
ghost use Rattle.ir_core.specs.edits.UseEdits.{AnswersReplaceAllUsesWith, AnswersReplaceUseWith, AnswersRetargetAllPredsTo, AnswersRetargetPredTo};

use crate::edits::Entity;
use ir_context::{
    BlockCalls, CoreError, OperandCalls, OperationCalls, PredecessorCalls, SuccessorCalls,
    TypeTable, TypedProgram, UseCalls, ValueCalls,
};
use ir_program::{BasicBlock, Operation, Ptr, Value};

/// Puts another value in place of each operand that is the value.
pub fn replace_all_uses<O, B, T: TypeTable>(
    ctx: &mut TypedProgram<O, B, T>,
    value: Value,
    other: Value,
) -> Result<Option<Entity>, CoreError>
    ensures { AnswersReplaceAllUsesWith ctx.old value other ctx.new result }
{
    if !value.is_live(ctx) || !other.is_live(ctx) {
        return Err(CoreError::EditNotAllowed);
    }
    let _succeeds = value.replace_all_uses_with(ctx.allocator(), ctx, other);
    Ok(None)
}

/// Whether the operand of an operation at an index is the value.
pub fn is_operand<O, B, T: TypeTable>(
    ctx: &TypedProgram<O, B, T>,
    op: Ptr<Operation>,
    index: usize,
    value: Value,
) -> bool
    ensures { IsTrue result ↔ (slice_get (operands_at ctx.now.program op) index ≡ Some value) }
{
    op.is_live(ctx) && index < op.get_num_operands(ctx) && op.get_operand(ctx, index) == value
}

/// Puts another value in place of the value, at one of its uses.
pub fn replace_use<O, B, T: TypeTable>(
    ctx: &mut TypedProgram<O, B, T>,
    value: Value,
    op: Ptr<Operation>,
    index: usize,
    other: Value,
) -> Result<Option<Entity>, CoreError>
    ensures { AnswersReplaceUseWith ctx.old value op index other ctx.new result }
{
    if !is_operand(ctx, op, index, value) || !other.is_live(ctx) {
        return Err(CoreError::EditNotAllowed);
    }
    let _succeeds = op.replace_operand(ctx.allocator(), ctx, index, other);
    Ok(None)
}

/// Makes each edge to a block lead to another.
pub fn retarget_all<O, B, T: TypeTable>(
    ctx: &mut TypedProgram<O, B, T>,
    block: Ptr<BasicBlock>,
    other: Ptr<BasicBlock>,
) -> Result<Option<Entity>, CoreError>
    ensures { AnswersRetargetAllPredsTo ctx.old block other ctx.new result }
{
    if !block.is_live(ctx) || !other.is_live(ctx) {
        return Err(CoreError::EditNotAllowed);
    }
    let _succeeds = block.retarget_all_preds_to(ctx.allocator(), ctx, other);
    Ok(None)
}

/// Whether the successor of an operation at an index is the block.
pub fn is_successor<O, B, T: TypeTable>(
    ctx: &TypedProgram<O, B, T>,
    op: Ptr<Operation>,
    index: usize,
    block: Ptr<BasicBlock>,
) -> bool
    ensures { IsTrue result ↔ (slice_get (successors_at ctx.now.program op) index ≡ Some block) }
{
    op.is_live(ctx) && index < op.get_num_successors(ctx) && op.get_successor(ctx, index) == block
}

/// Makes the edge to a block at one place lead to another.
pub fn retarget_one<O, B, T: TypeTable>(
    ctx: &mut TypedProgram<O, B, T>,
    block: Ptr<BasicBlock>,
    op: Ptr<Operation>,
    index: usize,
    other: Ptr<BasicBlock>,
) -> Result<Option<Entity>, CoreError>
    ensures { AnswersRetargetPredTo ctx.old block op index other ctx.new result }
{
    if !is_successor(ctx, op, index, block) || !other.is_live(ctx) {
        return Err(CoreError::EditNotAllowed);
    }
    let _succeeds = op.replace_successor(ctx.allocator(), ctx, index, other);
    Ok(None)
}
