//! Edits of successors.
ghost use Rattle.ir_core.specs.edits.SuccessorEdits.{AnswersPushSuccessor, AnswersPopSuccessor, AnswersInsertSuccessor, AnswersRemoveSuccessor, AnswersReplaceSuccessor};

use crate::edits::Entity;
use ir_context::{BlockCalls, CoreError, OperationCalls, SuccessorCalls, TypeTable, TypedProgram};
use ir_program::{BasicBlock, Operation, Ptr};

/// Gives an operation one successor more, behind the others.
pub fn push_successor<O, B, T: TypeTable>(
    ctx: &mut TypedProgram<O, B, T>,
    op: Ptr<Operation>,
    block: Ptr<BasicBlock>,
) -> Result<Option<Entity>, CoreError>
    ensures { AnswersPushSuccessor ctx.old op block ctx.new result }
{
    if !op.is_live(ctx) || !block.is_live(ctx) {
        return Err(CoreError::EditNotAllowed);
    }
    op.push_successor(ctx.allocator(), ctx, block)?;
    Ok(None)
}

/// Takes away the last successor of an operation, if there is one.
#[tactic(auto, using(crate::proofs::EditsLemmas::Asked::successor_popped))]
pub fn pop_successor<O, B, T: TypeTable>(
    ctx: &mut TypedProgram<O, B, T>,
    op: Ptr<Operation>,
) -> Result<Option<Entity>, CoreError>
    ensures { AnswersPopSuccessor ctx.old op ctx.new result }
{
    if !op.is_live(ctx) {
        return Err(CoreError::EditNotAllowed);
    }
    op.pop_successor(ctx);
    Ok(None)
}

/// Puts a successor at an index.
pub fn insert_successor<O, B, T: TypeTable>(
    ctx: &mut TypedProgram<O, B, T>,
    op: Ptr<Operation>,
    index: usize,
    block: Ptr<BasicBlock>,
) -> Result<Option<Entity>, CoreError>
    ensures { AnswersInsertSuccessor ctx.old op index block ctx.new result }
{
    if !op.is_live(ctx) || index > op.get_num_successors(ctx) || !block.is_live(ctx) {
        return Err(CoreError::EditNotAllowed);
    }
    op.insert_successor(ctx.allocator(), ctx, index, block)?;
    Ok(None)
}

/// Takes away the successor at an index.
pub fn remove_successor<O, B, T: TypeTable>(
    ctx: &mut TypedProgram<O, B, T>,
    op: Ptr<Operation>,
    index: usize,
) -> Result<Option<Entity>, CoreError>
    ensures { AnswersRemoveSuccessor ctx.old op index ctx.new result }
{
    if !op.is_live(ctx) || index >= op.get_num_successors(ctx) {
        return Err(CoreError::EditNotAllowed);
    }
    op.remove_successor(ctx, index);
    Ok(None)
}

/// Puts another block in place of the successor at an index.
pub fn replace_successor<O, B, T: TypeTable>(
    ctx: &mut TypedProgram<O, B, T>,
    op: Ptr<Operation>,
    index: usize,
    block: Ptr<BasicBlock>,
) -> Result<Option<Entity>, CoreError>
    ensures { AnswersReplaceSuccessor ctx.old op index block ctx.new result }
{
    if !op.is_live(ctx) || index >= op.get_num_successors(ctx) || !block.is_live(ctx) {
        return Err(CoreError::EditNotAllowed);
    }
    let _succeeds = op.replace_successor(ctx.allocator(), ctx, index, block);
    Ok(None)
}
