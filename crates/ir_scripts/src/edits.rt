//! Edits from the words of a line. A command has the name of its edit.
use crate::argument::{Argument, block, number, operation, place, region, ty, value};
use crate::making::edit_with_lists;
use crate::tiny::TinyOp;
use ir_core::{At, Edit, Operation, Ptr};
use std::alloc::{AllocError, Global};

/// The edit that a command with arguments is, or none where it is none.
pub fn edit(
    alloc: Global,
    command: &str,
    arguments: &[Argument],
) -> Result<Option<Edit<TinyOp>>, AllocError> {
    match edit_of_row(command, arguments) {
        Some(edit) => Ok(Some(edit)),
        None => edit_with_lists(alloc, command, arguments),
    }
}

/// Edits of operands and successors, and those that come behind them.
fn edit_of_row(command: &str, arguments: &[Argument]) -> Option<Edit<TinyOp>> {
    let Some(op) = operation(arguments, 0) else {
        return edit_of_block(command, arguments);
    };
    match command {
        "push_operand" => Some(Edit::PushOperand(op, value(arguments, 1)?)),
        "pop_operand" => Some(Edit::PopOperand(op)),
        "insert_operand" => Some(Edit::InsertOperand(
            op,
            number(arguments, 1)?,
            value(arguments, 2)?,
        )),
        "remove_operand" => Some(Edit::RemoveOperand(op, number(arguments, 1)?)),
        "replace_operand" => {
            Some(Edit::ReplaceOperand(op, number(arguments, 1)?, value(arguments, 2)?))
        }
        "push_successor" => Some(Edit::PushSuccessor(op, block(arguments, 1)?)),
        "pop_successor" => Some(Edit::PopSuccessor(op)),
        "insert_successor" => {
            Some(Edit::InsertSuccessor(op, number(arguments, 1)?, block(arguments, 2)?))
        }
        "remove_successor" => Some(Edit::RemoveSuccessor(op, number(arguments, 1)?)),
        "replace_successor" => {
            Some(Edit::ReplaceSuccessor(op, number(arguments, 1)?, block(arguments, 2)?))
        }
        _ => edit_of_operation(command, op, arguments),
    }
}

/// Edits of results and regions and of operations in lists, and those that come behind them.
fn edit_of_operation(
    command: &str,
    op: At<Ptr<Operation>>,
    arguments: &[Argument],
) -> Option<Edit<TinyOp>> {
    match command {
        "push_result" => Some(Edit::PushResult(op, ty(arguments, 1)?)),
        "pop_result" => Some(Edit::PopResult(op)),
        "insert_result" => Some(Edit::InsertResult(op, number(arguments, 1)?, ty(arguments, 2)?)),
        "remove_result" => Some(Edit::RemoveResult(op, number(arguments, 1)?)),
        "add_region" => Some(Edit::AddRegion(op)),
        "erase_region" => Some(Edit::EraseRegion(op, number(arguments, 1)?)),
        "operation_drop_all_uses" => Some(Edit::OperationDropAllUses(op)),
        "erase_operation" => Some(Edit::EraseOperation(op)),
        "insert_operation_after" => Some(Edit::InsertOperationAfter(op, operation(arguments, 1)?)),
        "insert_operation_before" => Some(Edit::InsertOperationBefore(
            op,
            operation(arguments, 1)?,
        )),
        "insert_operation_at_front" => Some(Edit::InsertOperationAtFront(op, block(arguments, 1)?)),
        "insert_operation_at_back" => Some(Edit::InsertOperationAtBack(op, block(arguments, 1)?)),
        "unlink_operation" => Some(Edit::UnlinkOperation(op)),
        _ => edit_of_block(command, arguments),
    }
}

/// Edits of blocks, and those that come behind them.
fn edit_of_block(command: &str, arguments: &[Argument]) -> Option<Edit<TinyOp>> {
    let Some(old) = block(arguments, 0) else {
        return edit_of_region(command, arguments);
    };
    match command {
        "push_argument" => Some(Edit::PushArgument(old, ty(arguments, 1)?)),
        "pop_argument" => Some(Edit::PopArgument(old)),
        "insert_argument" => Some(Edit::InsertArgument(
            old,
            number(arguments, 1)?,
            ty(arguments, 2)?,
        )),
        "remove_argument" => Some(Edit::RemoveArgument(old, number(arguments, 1)?)),
        "block_drop_all_uses" => Some(Edit::BlockDropAllUses(old)),
        "erase_block" => Some(Edit::EraseBlock(old)),
        "retarget_all_preds_to" => Some(Edit::RetargetAllPredsTo(old, block(arguments, 1)?)),
        "retarget_pred_to" => {
            Some(Edit::RetargetPredTo(old, place(arguments, 2)?, block(arguments, 1)?))
        }
        "insert_block_after" => Some(Edit::InsertBlockAfter(old, block(arguments, 1)?)),
        "insert_block_before" => Some(Edit::InsertBlockBefore(old, block(arguments, 1)?)),
        "insert_block_at_front" => Some(Edit::InsertBlockAtFront(old, region(arguments, 1)?)),
        "insert_block_at_back" => Some(Edit::InsertBlockAtBack(old, region(arguments, 1)?)),
        "unlink_block" => Some(Edit::UnlinkBlock(old)),
        "append_operations" => Some(Edit::AppendOperations(old, block(arguments, 1)?)),
        _ => edit_of_region(command, arguments),
    }
}

/// Edits of regions and of values.
fn edit_of_region(command: &str, arguments: &[Argument]) -> Option<Edit<TinyOp>> {
    let Some(old) = region(arguments, 0) else {
        return edit_of_value(command, arguments);
    };
    match command {
        "move_region_to_op" => Some(Edit::MoveRegionToOp(old, operation(arguments, 1)?)),
        "region_drop_all_uses" => Some(Edit::RegionDropAllUses(old)),
        "append_blocks" => Some(Edit::AppendBlocks(old, region(arguments, 1)?)),
        _ => edit_of_value(command, arguments),
    }
}

/// Edits of values.
fn edit_of_value(command: &str, arguments: &[Argument]) -> Option<Edit<TinyOp>> {
    let old = value(arguments, 0)?;
    match command {
        "replace_all_uses_with" => Some(Edit::ReplaceAllUsesWith(old, value(arguments, 1)?)),
        "replace_use_with" => {
            Some(Edit::ReplaceUseWith(old, place(arguments, 2)?, value(arguments, 1)?))
        }
        _ => None,
    }
}
