//! What the names of an edit stand for.
ghost use Rattle.std.specs.Prelude.{◌≡◌};
ghost use Rattle.ir_core.specs.edits.Resolving.{resolved};

use crate::edits::direct_edit::DirectEdit;
use crate::edits::named_edits::{
    append_blocks, drop_region_uses, insert_into_region, move_region, of_block, of_blocks,
    of_operation, of_operation_and_block, of_operation_and_value, of_operations, replace_all,
};
use crate::edits::shapes::{
    BlockEdit, BlocksEdit, EdgeEdit, End, OperandEdit, OperationEdit, Side,
};
use crate::edits::{Edit, Entity, naming};
use ir_program::Program;

/// The edit on what its names stand for, if each of them stands for something and it has no lists. What the edits before
/// it made is in `made`.
pub fn resolve<O, B, K: Copy>(
    program: &Program<O, B>,
    made: &[Option<Entity>],
    edit: &Edit<K>,
) -> Option<DirectEdit>
    ensures { result ≡ resolved program.now made.now edit.now }
{
    match edit {
        Edit::PushResult(op, ty) => of_operation(made, *op, OperationEdit::PushResult(*ty)),
        Edit::PopResult(op) => of_operation(made, *op, OperationEdit::PopResult),
        Edit::InsertResult(op, index, ty) => of_operation(
            made,
            *op,
            OperationEdit::InsertResult(*index, *ty),
        ),
        Edit::RemoveResult(op, index) => of_operation(
            made,
            *op,
            OperationEdit::RemoveResult(*index),
        ),
        Edit::PushArgument(block, ty) => of_block(made, *block, BlockEdit::PushArgument(*ty)),
        Edit::PopArgument(block) => of_block(made, *block, BlockEdit::PopArgument),
        Edit::InsertArgument(block, index, ty) => of_block(
            made,
            *block,
            BlockEdit::InsertArgument(*index, *ty),
        ),
        Edit::RemoveArgument(block, index) => of_block(
            made,
            *block,
            BlockEdit::RemoveArgument(*index),
        ),
        Edit::PushOperand(op, value) => of_operation_and_value(
            program,
            made,
            *op,
            *value,
            OperandEdit::Push,
        ),
        Edit::PopOperand(op) => of_operation(made, *op, OperationEdit::PopOperand),
        Edit::InsertOperand(op, index, value) => of_operation_and_value(
            program,
            made,
            *op,
            *value,
            OperandEdit::Insert(*index),
        ),
        Edit::RemoveOperand(op, index) => of_operation(
            made,
            *op,
            OperationEdit::RemoveOperand(*index),
        ),
        Edit::ReplaceOperand(op, index, value) => of_operation_and_value(
            program,
            made,
            *op,
            *value,
            OperandEdit::Replace(*index),
        ),
        Edit::PushSuccessor(op, block) => of_operation_and_block(
            made,
            *op,
            *block,
            EdgeEdit::PushSuccessor,
        ),
        Edit::PopSuccessor(op) => of_operation(made, *op, OperationEdit::PopSuccessor),
        Edit::InsertSuccessor(op, index, block) => of_operation_and_block(
            made,
            *op,
            *block,
            EdgeEdit::InsertSuccessor(*index),
        ),
        Edit::RemoveSuccessor(op, index) => of_operation(
            made,
            *op,
            OperationEdit::RemoveSuccessor(*index),
        ),
        Edit::ReplaceSuccessor(op, index, block) => of_operation_and_block(
            made,
            *op,
            *block,
            EdgeEdit::ReplaceSuccessor(*index),
        ),
        Edit::AddRegion(op) => of_operation(made, *op, OperationEdit::AddRegion),
        Edit::EraseRegion(op, index) => of_operation(made, *op, OperationEdit::EraseRegion(*index)),
        Edit::EraseOperation(op) => of_operation(made, *op, OperationEdit::Erase),
        Edit::EraseBlock(block) => of_block(made, *block, BlockEdit::Erase),
        Edit::MoveRegionToOp(region, op) => move_region(program, made, *region, *op),
        Edit::OperationDropAllUses(op) => of_operation(made, *op, OperationEdit::DropAllUses),
        Edit::RegionDropAllUses(region) => drop_region_uses(program, made, *region),
        Edit::BlockDropAllUses(block) => of_block(made, *block, BlockEdit::DropAllUses),
        Edit::InsertOperationAfter(op, mark) => of_operations(made, *op, *mark, Side::After),
        Edit::InsertOperationBefore(op, mark) => of_operations(made, *op, *mark, Side::Before),
        Edit::InsertOperationAtFront(op, block) => of_operation_and_block(
            made,
            *op,
            *block,
            EdgeEdit::InsertAtFront,
        ),
        Edit::InsertOperationAtBack(op, block) => of_operation_and_block(
            made,
            *op,
            *block,
            EdgeEdit::InsertAtBack,
        ),
        Edit::UnlinkOperation(op) => of_operation(made, *op, OperationEdit::Unlink),
        Edit::AppendOperations(donee, donor) => of_blocks(
            made,
            *donee,
            *donor,
            BlocksEdit::AppendOperations,
        ),
        Edit::InsertBlockAfter(block, mark) => of_blocks(
            made,
            *block,
            *mark,
            BlocksEdit::InsertAfter,
        ),
        Edit::InsertBlockBefore(block, mark) => of_blocks(
            made,
            *block,
            *mark,
            BlocksEdit::InsertBefore,
        ),
        Edit::InsertBlockAtFront(block, region) => insert_into_region(
            program,
            made,
            *block,
            *region,
            End::Front,
        ),
        Edit::InsertBlockAtBack(block, region) => insert_into_region(
            program,
            made,
            *block,
            *region,
            End::Back,
        ),
        Edit::UnlinkBlock(block) => of_block(made, *block, BlockEdit::Unlink),
        Edit::AppendBlocks(donee, donor) => append_blocks(program, made, *donee, *donor),
        Edit::ReplaceAllUsesWith(value, other) => replace_all(program, made, *value, *other),
        Edit::ReplaceUseWith(value, place, other) => {
            let value = naming::value_in_program(program, made, *value)?;
            let op = naming::operation(made, place.user_op)?;
            let other = naming::value_in_program(program, made, *other)?;
            Some(DirectEdit::ReplaceUseWith(value, op, place.index, other))
        }
        Edit::RetargetAllPredsTo(block, other) => of_blocks(
            made,
            *block,
            *other,
            BlocksEdit::RetargetAll,
        ),
        Edit::RetargetPredTo(block, place, other) => {
            let block = naming::block(made, *block)?;
            let op = naming::operation(made, place.user_op)?;
            let other = naming::block(made, *other)?;
            Some(DirectEdit::RetargetPredTo(block, op, place.index, other))
        }
        _ => None,
    }
}
