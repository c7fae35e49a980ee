//! One edit, whichever it is.
ghost use Rattle.ir_core.specs.edits.Steps.{does, step};

use crate::edits::direct_edit::DirectEdit;
use crate::edits::resolve::resolve;
use crate::edits::{
    Edit, Entity, arguments, block_lists, holders, listed_uses, making, naming, operands,
    operation_lists, results, successors, uses,
};
use ir_context::{Context, CoreError, TypeTable, TypedProgram};
use ir_types::DialectTables;

/// Makes an edit. What the edits before it made is in `made`.
///
/// # Errors
/// `EditNotAllowed` where a name stands for nothing or the edit may not be made, `Memory` and `CounterFull` as the call that
/// it stands for. Nothing is changed then.
pub fn apply<D: DialectTables>(
    ctx: &mut Context<D>,
    made: &[Option<Entity>],
    edit: &Edit<D::OpKind>,
) -> Result<Option<Entity>, CoreError>
    ensures { step D.nowhere ctx.old made.now edit.now ctx.new result }
{
    match edit {
        Edit::NewOperation {
            kind,
            result_types,
            operands,
            successors,
            num_regions,
        } => making::new_operation(
            ctx,
            made,
            *kind,
            result_types,
            operands,
            successors,
            *num_regions,
        ),
        Edit::NewBlock {
            label,
            argument_types,
        } => making::new_block(ctx, label, argument_types),
        Edit::RetargetSomePredsTo(block, places, other) => {
            let Some(block) = naming::block(made, *block) else {
                return Err(CoreError::EditNotAllowed);
            };
            let Some(other) = naming::block(made, *other) else {
                return Err(CoreError::EditNotAllowed);
            };
            listed_uses::retarget_some(ctx, made, block, places, other)
        }
        Edit::ReplaceSomeUsesWith(value, places, other) => {
            let Some(value) = naming::value(ctx, made, *value) else {
                return Err(CoreError::EditNotAllowed);
            };
            let Some(other) = naming::value(ctx, made, *other) else {
                return Err(CoreError::EditNotAllowed);
            };
            listed_uses::replace_some_uses(ctx, made, value, places, other)
        }
        _ => match resolve(ctx.program(), made, edit) {
            Some(direct) => apply_direct(ctx, direct),
            None => Err(CoreError::EditNotAllowed),
        },
    }
}

/// Makes an edit of what is there.
///
/// # Errors
/// `EditNotAllowed` where the edit may not be made, `Memory` and `CounterFull` as the call that it stands for. Nothing is
/// changed then.
fn apply_direct<O: Drop, B: Drop, T: TypeTable>(
    ctx: &mut TypedProgram<O, B, T>,
    edit: DirectEdit,
) -> Result<Option<Entity>, CoreError>
    ensures { does T.type_count ctx.old edit ctx.new result }
{
    match edit {
        DirectEdit::PushResult(op, ty) => results::push_result(ctx, op, ty),
        DirectEdit::PopResult(op) => results::pop_result(ctx, op),
        DirectEdit::InsertResult(op, index, ty) => results::insert_result(ctx, op, index, ty),
        DirectEdit::RemoveResult(op, index) => results::remove_result(ctx, op, index),
        DirectEdit::PushArgument(block, ty) => arguments::push_argument(ctx, block, ty),
        DirectEdit::PopArgument(block) => arguments::pop_argument(ctx, block),
        DirectEdit::InsertArgument(block, index, ty) => arguments::insert_argument(
            ctx, block, index, ty,
        ),
        DirectEdit::RemoveArgument(block, index) => arguments::remove_argument(ctx, block, index),
        DirectEdit::PushOperand(op, value) => operands::push_operand(ctx, op, value),
        DirectEdit::PopOperand(op) => operands::pop_operand(ctx, op),
        DirectEdit::InsertOperand(op, index, value) => operands::insert_operand(
            ctx, op, index, value,
        ),
        DirectEdit::RemoveOperand(op, index) => operands::remove_operand(ctx, op, index),
        DirectEdit::ReplaceOperand(op, index, value) => operands::replace_operand(
            ctx, op, index, value,
        ),
        DirectEdit::PushSuccessor(op, block) => successors::push_successor(ctx, op, block),
        DirectEdit::PopSuccessor(op) => successors::pop_successor(ctx, op),
        DirectEdit::InsertSuccessor(op, index, block) => successors::insert_successor(
            ctx, op, index, block,
        ),
        DirectEdit::RemoveSuccessor(op, index) => successors::remove_successor(ctx, op, index),
        DirectEdit::ReplaceSuccessor(op, index, block) => successors::replace_successor(
            ctx, op, index, block,
        ),
        DirectEdit::AddRegion(op) => holders::add_region(ctx, op),
        DirectEdit::EraseRegion(op, index) => holders::erase_region(ctx, op, index),
        DirectEdit::EraseOperation(op) => holders::erase_operation(ctx, op),
        DirectEdit::EraseBlock(block) => holders::erase_block(ctx, block),
        DirectEdit::MoveRegionToOp(region, op) => holders::move_region_to_op(ctx, region, op),
        DirectEdit::DropAllUses(node) => holders::drop_all_uses(ctx, node),
        DirectEdit::InsertOperationAfter(op, mark) => operation_lists::insert_operation_after(
            ctx, op, mark,
        ),
        DirectEdit::InsertOperationBefore(op, mark) => operation_lists::insert_operation_before(
            ctx, op, mark,
        ),
        DirectEdit::InsertOperationAtFront(op, block) => operation_lists::insert_operation_at_front(
            ctx, op, block,
        ),
        DirectEdit::InsertOperationAtBack(op, block) => operation_lists::insert_operation_at_back(
            ctx, op, block,
        ),
        DirectEdit::UnlinkOperation(op) => operation_lists::unlink_operation(ctx, op),
        DirectEdit::AppendOperations(donee, donor) => operation_lists::append_operations(
            ctx, donee, donor,
        ),
        DirectEdit::InsertBlockAfter(block, mark) => block_lists::insert_block_after(
            ctx, block, mark,
        ),
        DirectEdit::InsertBlockBefore(block, mark) => block_lists::insert_block_before(
            ctx, block, mark,
        ),
        DirectEdit::InsertBlockAtFront(block, region) => block_lists::insert_block_at_front(
            ctx, block, region,
        ),
        DirectEdit::InsertBlockAtBack(block, region) => block_lists::insert_block_at_back(
            ctx, block, region,
        ),
        DirectEdit::UnlinkBlock(block) => block_lists::unlink_block(ctx, block),
        DirectEdit::AppendBlocks(donee, donor) => block_lists::append_blocks(ctx, donee, donor),
        DirectEdit::ReplaceAllUsesWith(value, other) => uses::replace_all_uses(ctx, value, other),
        DirectEdit::ReplaceUseWith(value, op, index, other) => uses::replace_use(
            ctx, value, op, index, other,
        ),
        DirectEdit::RetargetAllPredsTo(block, other) => uses::retarget_all(ctx, block, other),
        DirectEdit::RetargetPredTo(block, op, index, other) => uses::retarget_one(
            ctx, block, op, index, other,
        ),
    }
}
