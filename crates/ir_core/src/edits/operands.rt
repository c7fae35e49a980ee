//! Edits of operands.
ghost use Rattle.ir_core.specs.edits.OperandEdits.{AnswersPushOperand, AnswersPopOperand, AnswersInsertOperand, AnswersRemoveOperand, AnswersReplaceOperand};

use crate::edits::Entity;
use ir_context::{CoreError, OperandCalls, OperationCalls, TypeTable, TypedProgram, ValueCalls};
use ir_program::{Operation, Ptr, Value};

/// Gives an operation one operand more, behind the others.
pub fn push_operand<O, B, T: TypeTable>(
    ctx: &mut TypedProgram<O, B, T>,
    op: Ptr<Operation>,
    value: Value,
) -> Result<Option<Entity>, CoreError>
    ensures { AnswersPushOperand ctx.old op value ctx.new result }
{
    if !op.is_live(ctx) || !value.is_live(ctx) {
        return Err(CoreError::EditNotAllowed);
    }
    op.push_operand(ctx.allocator(), ctx, value)?;
    Ok(None)
}

/// Takes away the last operand of an operation, if there is one.
#[tactic(auto, using(crate::proofs::EditsLemmas::Asked::operand_popped))]
pub fn pop_operand<O, B, T: TypeTable>(
    ctx: &mut TypedProgram<O, B, T>,
    op: Ptr<Operation>,
) -> Result<Option<Entity>, CoreError>
    ensures { AnswersPopOperand ctx.old op ctx.new result }
{
    if !op.is_live(ctx) {
        return Err(CoreError::EditNotAllowed);
    }
    op.pop_operand(ctx);
    Ok(None)
}

/// Puts an operand at an index.
pub fn insert_operand<O, B, T: TypeTable>(
    ctx: &mut TypedProgram<O, B, T>,
    op: Ptr<Operation>,
    index: usize,
    value: Value,
) -> Result<Option<Entity>, CoreError>
    ensures { AnswersInsertOperand ctx.old op index value ctx.new result }
{
    if !op.is_live(ctx) || index > op.get_num_operands(ctx) || !value.is_live(ctx) {
        return Err(CoreError::EditNotAllowed);
    }
    op.insert_operand(ctx.allocator(), ctx, index, value)?;
    Ok(None)
}

/// Takes away the operand at an index.
pub fn remove_operand<O, B, T: TypeTable>(
    ctx: &mut TypedProgram<O, B, T>,
    op: Ptr<Operation>,
    index: usize,
) -> Result<Option<Entity>, CoreError>
    ensures { AnswersRemoveOperand ctx.old op index ctx.new result }
{
    if !op.is_live(ctx) || index >= op.get_num_operands(ctx) {
        return Err(CoreError::EditNotAllowed);
    }
    op.remove_operand(ctx, index);
    Ok(None)
}

/// Puts another value in place of the operand at an index.
pub fn replace_operand<O, B, T: TypeTable>(
    ctx: &mut TypedProgram<O, B, T>,
    op: Ptr<Operation>,
    index: usize,
    value: Value,
) -> Result<Option<Entity>, CoreError>
    ensures { AnswersReplaceOperand ctx.old op index value ctx.new result }
{
    if !op.is_live(ctx) || index >= op.get_num_operands(ctx) || !value.is_live(ctx) {
        return Err(CoreError::EditNotAllowed);
    }
    let _succeeds = op.replace_operand(ctx.allocator(), ctx, index, value);
    Ok(None)
}
