//! Edits of results.
ghost use Rattle.std.specs.Prelude.{◌≡◌, ◌↔◌, ◌<◌, ◌-◌, Some, IsSome, IsTrue};
ghost use Rattle.ir_program.specs.Program.{operation_at, results_at, result_count, value_in};
ghost use Rattle.ir_program.specs.Uses.{IsUsed};
ghost use Rattle.ir_program.specs.declared.handles.Value.{Value};
ghost use Rattle.ir_core.specs.edits.ResultEdits.{AnswersPushResult, AnswersPopResult, AnswersInsertResult, AnswersRemoveResult};

use crate::edits::Entity;
use ir_context::{
    CoreError, OperationCalls, ResultCalls, TypeCalls, TypeTable, TypedProgram, UseCalls,
};
use ir_names::TypeHandle;
use ir_program::{Operation, Ptr};

/// Gives an operation one result more, behind the others.
pub fn push_result<O, B, T: TypeTable>(
    ctx: &mut TypedProgram<O, B, T>,
    op: Ptr<Operation>,
    ty: TypeHandle,
) -> Result<Option<Entity>, CoreError>
    ensures { AnswersPushResult T.type_count ctx.old op ty ctx.new result }
{
    if !op.is_live(ctx) || !ty.is_live(ctx) {
        return Err(CoreError::EditNotAllowed);
    }
    let value = op.push_result(ctx.allocator(), ctx, ty)?;
    Ok(Some(Entity::Value(value)))
}

/// Takes away the last result of an operation, if there is one.
pub fn pop_result<O, B, T: TypeTable>(
    ctx: &mut TypedProgram<O, B, T>,
    op: Ptr<Operation>,
) -> Result<Option<Entity>, CoreError>
    ensures { AnswersPopResult T.type_count ctx.old op ctx.new result }
{
    if !op.is_live(ctx) || has_used_last_result(ctx, op) {
        return Err(CoreError::EditNotAllowed);
    }
    op.pop_result(ctx);
    Ok(None)
}

/// Gives an operation one result more, at an index.
pub fn insert_result<O, B, T: TypeTable>(
    ctx: &mut TypedProgram<O, B, T>,
    op: Ptr<Operation>,
    index: usize,
    ty: TypeHandle,
) -> Result<Option<Entity>, CoreError>
    ensures { AnswersInsertResult T.type_count ctx.old op index ty ctx.new result }
{
    if !op.is_live(ctx) || index > op.get_num_results(ctx) || !ty.is_live(ctx) {
        return Err(CoreError::EditNotAllowed);
    }
    let value = op.insert_result(ctx.allocator(), ctx, index, ty)?;
    Ok(Some(Entity::Value(value)))
}

/// Takes away the result at an index.
pub fn remove_result<O, B, T: TypeTable>(
    ctx: &mut TypedProgram<O, B, T>,
    op: Ptr<Operation>,
    index: usize,
) -> Result<Option<Entity>, CoreError>
    ensures { AnswersRemoveResult T.type_count ctx.old op index ctx.new result }
{
    if !op.is_live(ctx) || index >= op.get_num_results(ctx) || has_used_result(ctx, op, index) {
        return Err(CoreError::EditNotAllowed);
    }
    op.remove_result(ctx, index);
    Ok(None)
}

/// Whether some operation takes the result at an index.
fn has_used_result<O, B, T: TypeTable>(
    ctx: &TypedProgram<O, B, T>,
    op: Ptr<Operation>,
    index: usize,
) -> bool
    requires there { IsSome (operation_at ctx.now.program op) }
    requires within { index < result_count ctx.now.program op }
    ensures { IsTrue result ↔ ((v : Value) × (value_in (results_at ctx.now.program op) index ≡ Some v)
        × IsUsed ctx.now.program v) }
{
    op.get_result(ctx, index).is_used(ctx)
}

/// Whether some operation takes the last result, if there is one.
fn has_used_last_result<O, B, T: TypeTable>(ctx: &TypedProgram<O, B, T>, op: Ptr<Operation>) -> bool
    requires { IsSome (operation_at ctx.now.program op) }
    ensures { IsTrue result ↔ ((v : Value)
        × (value_in (results_at ctx.now.program op) (result_count ctx.now.program op - 1) ≡ Some v)
        × IsUsed ctx.now.program v) }
{
    let count = op.get_num_results(ctx);
    count > 0 && has_used_result(ctx, op, count - 1)
}
