//! Edits of arguments.
ghost use Rattle.std.specs.Prelude.{◌≡◌, ◌↔◌, ◌<◌, ◌-◌, Some, IsSome, IsTrue};
ghost use Rattle.ir_program.specs.Program.{block_at, arguments_at, argument_count, value_in};
ghost use Rattle.ir_program.specs.Uses.{IsUsed};
ghost use Rattle.ir_program.specs.declared.handles.Value.{Value};
ghost use Rattle.ir_core.specs.edits.ArgumentEdits.{AnswersPushArgument, AnswersPopArgument, AnswersInsertArgument, AnswersRemoveArgument};

use crate::edits::Entity;
use ir_context::{
    ArgumentCalls, BlockCalls, CoreError, TypeCalls, TypeTable, TypedProgram, UseCalls,
};
use ir_names::TypeHandle;
use ir_program::{BasicBlock, Ptr};

/// Gives a block one argument more, behind the others.
pub fn push_argument<O, B, T: TypeTable>(
    ctx: &mut TypedProgram<O, B, T>,
    block: Ptr<BasicBlock>,
    ty: TypeHandle,
) -> Result<Option<Entity>, CoreError>
    ensures { AnswersPushArgument T.type_count ctx.old block ty ctx.new result }
{
    if !block.is_live(ctx) || !ty.is_live(ctx) {
        return Err(CoreError::EditNotAllowed);
    }
    let value = block.push_argument(ctx.allocator(), ctx, ty)?;
    Ok(Some(Entity::Value(value)))
}

/// Takes away the last argument of a block, if there is one.
pub fn pop_argument<O, B, T: TypeTable>(
    ctx: &mut TypedProgram<O, B, T>,
    block: Ptr<BasicBlock>,
) -> Result<Option<Entity>, CoreError>
    ensures { AnswersPopArgument T.type_count ctx.old block ctx.new result }
{
    if !block.is_live(ctx) || has_used_last_argument(ctx, block) {
        return Err(CoreError::EditNotAllowed);
    }
    block.pop_argument(ctx);
    Ok(None)
}

/// Gives a block one argument more, at an index.
pub fn insert_argument<O, B, T: TypeTable>(
    ctx: &mut TypedProgram<O, B, T>,
    block: Ptr<BasicBlock>,
    index: usize,
    ty: TypeHandle,
) -> Result<Option<Entity>, CoreError>
    ensures { AnswersInsertArgument T.type_count ctx.old block index ty ctx.new result }
{
    if !block.is_live(ctx) || index > block.get_num_arguments(ctx) || !ty.is_live(ctx) {
        return Err(CoreError::EditNotAllowed);
    }
    let value = block.insert_argument(ctx.allocator(), ctx, index, ty)?;
    Ok(Some(Entity::Value(value)))
}

/// Takes away the argument at an index.
pub fn remove_argument<O, B, T: TypeTable>(
    ctx: &mut TypedProgram<O, B, T>,
    block: Ptr<BasicBlock>,
    index: usize,
) -> Result<Option<Entity>, CoreError>
    ensures { AnswersRemoveArgument T.type_count ctx.old block index ctx.new result }
{
    if !block.is_live(ctx)
        || index >= block.get_num_arguments(ctx)
        || has_used_argument(ctx, block, index)
    {
        return Err(CoreError::EditNotAllowed);
    }
    block.remove_argument(ctx, index);
    Ok(None)
}

/// Whether some operation takes the argument at an index.
fn has_used_argument<O, B, T: TypeTable>(
    ctx: &TypedProgram<O, B, T>,
    block: Ptr<BasicBlock>,
    index: usize,
) -> bool
    requires there { IsSome (block_at ctx.now.program block) }
    requires within { index < argument_count ctx.now.program block }
    ensures { IsTrue result ↔ ((v : Value) × (value_in (arguments_at ctx.now.program block) index ≡ Some v)
        × IsUsed ctx.now.program v) }
{
    block.get_argument(ctx, index).is_used(ctx)
}

/// Whether some operation takes the last argument, if there is one.
fn has_used_last_argument<O, B, T: TypeTable>(
    ctx: &TypedProgram<O, B, T>,
    block: Ptr<BasicBlock>,
) -> bool
    requires { IsSome (block_at ctx.now.program block) }
    ensures { IsTrue result ↔ ((v : Value)
        × (value_in (arguments_at ctx.now.program block) (argument_count ctx.now.program block - 1) ≡ Some v)
        × IsUsed ctx.now.program v) }
{
    let count = block.get_num_arguments(ctx);
    count > 0 && has_used_argument(ctx, block, count - 1)
}
