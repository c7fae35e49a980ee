//! Edits of what is named, on what the names stand for; none where a name stands for nothing.
ghost use Rattle.std.specs.Prelude.{◌≡◌, option_map};
ghost use Rattle.ir_program.specs.declared.handles.IRNode.TheVariants.{Region as RegionNode};
ghost use Rattle.ir_core.specs.declared.edits.direct_edit.DirectEdit.TheVariants as direct;
ghost use Rattle.ir_core.specs.edits.Naming.{operation_named, block_named, region_named, value_named};
ghost use Rattle.ir_core.specs.edits.Resolving.{of_both};
ghost use Rattle.ir_core.specs.edits.Shapes.{operation_edit, block_edit, operand_edit, edge_edit, operations_edit, blocks_edit, region_edit};

use crate::edits::direct_edit::DirectEdit;
use crate::edits::shapes::{
    BlockEdit, BlocksEdit, EdgeEdit, End, OperandEdit, OperationEdit, Side, block_edit,
    blocks_edit, edge_edit, operand_edit, operation_edit, operations_edit, region_edit,
};
use crate::edits::{At, Entity, RegionAt, ValueAt, naming};
use ir_program::{BasicBlock, IRNode, Operation, Program, Ptr};

/// The edit of an operation.
pub fn of_operation(
    made: &[Option<Entity>],
    op: At<Ptr<Operation>>,
    edit: OperationEdit,
) -> Option<DirectEdit>
    ensures { result ≡ option_map (operation_edit edit) (operation_named made.now op) }
{
    let op = naming::operation(made, op)?;
    Some(operation_edit(op, edit))
}

/// The edit of a block.
pub fn of_block(
    made: &[Option<Entity>],
    block: At<Ptr<BasicBlock>>,
    edit: BlockEdit,
) -> Option<DirectEdit>
    ensures { result ≡ option_map (block_edit edit) (block_named made.now block) }
{
    let block = naming::block(made, block)?;
    Some(block_edit(block, edit))
}

/// The edit of an operation's operands, with a value.
pub fn of_operation_and_value<O, B>(
    program: &Program<O, B>,
    made: &[Option<Entity>],
    op: At<Ptr<Operation>>,
    value: ValueAt,
    edit: OperandEdit,
) -> Option<DirectEdit>
    ensures { result
        ≡ of_both (operand_edit edit) (operation_named made.now op) (value_named program.now made.now value) }
{
    let op = naming::operation(made, op)?;
    let value = naming::value_in_program(program, made, value)?;
    Some(operand_edit(op, value, edit))
}

/// The edit of an operation and a block.
pub fn of_operation_and_block(
    made: &[Option<Entity>],
    op: At<Ptr<Operation>>,
    block: At<Ptr<BasicBlock>>,
    edit: EdgeEdit,
) -> Option<DirectEdit>
    ensures { result ≡ of_both (edge_edit edit) (operation_named made.now op) (block_named made.now block) }
{
    let op = naming::operation(made, op)?;
    let block = naming::block(made, block)?;
    Some(edge_edit(op, block, edit))
}

/// The edit that puts an operation beside another.
pub fn of_operations(
    made: &[Option<Entity>],
    op: At<Ptr<Operation>>,
    mark: At<Ptr<Operation>>,
    side: Side,
) -> Option<DirectEdit>
    ensures { result ≡ of_both (operations_edit side) (operation_named made.now op) (operation_named made.now mark) }
{
    let op = naming::operation(made, op)?;
    let mark = naming::operation(made, mark)?;
    Some(operations_edit(op, mark, side))
}

/// The edit of two blocks.
pub fn of_blocks(
    made: &[Option<Entity>],
    block: At<Ptr<BasicBlock>>,
    other: At<Ptr<BasicBlock>>,
    edit: BlocksEdit,
) -> Option<DirectEdit>
    ensures { result ≡ of_both (blocks_edit edit) (block_named made.now block) (block_named made.now other) }
{
    let block = naming::block(made, block)?;
    let other = naming::block(made, other)?;
    Some(blocks_edit(block, other, edit))
}

/// The edit that puts a block at an end of a region.
pub fn insert_into_region<O, B>(
    program: &Program<O, B>,
    made: &[Option<Entity>],
    block: At<Ptr<BasicBlock>>,
    region: RegionAt,
    end: End,
) -> Option<DirectEdit>
    ensures { result
        ≡ of_both (region_edit end) (block_named made.now block) (region_named program.now made.now region) }
{
    let block = naming::block(made, block)?;
    let region = naming::region(program, made, region)?;
    Some(region_edit(block, region, end))
}

/// The edit that moves a region to an operation.
pub fn move_region<O, B>(
    program: &Program<O, B>,
    made: &[Option<Entity>],
    region: RegionAt,
    op: At<Ptr<Operation>>,
) -> Option<DirectEdit>
    ensures { result
        ≡ of_both direct.MoveRegionToOp (region_named program.now made.now region) (operation_named made.now op) }
{
    let region = naming::region(program, made, region)?;
    let op = naming::operation(made, op)?;
    Some(DirectEdit::MoveRegionToOp(region, op))
}

/// The edit that drops the uses inside a region.
pub fn drop_region_uses<O, B>(
    program: &Program<O, B>,
    made: &[Option<Entity>],
    region: RegionAt,
) -> Option<DirectEdit>
    ensures { result
        ≡ option_map (λ q. direct.DropAllUses (RegionNode q)) (region_named program.now made.now region) }
{
    let region = naming::region(program, made, region)?;
    Some(DirectEdit::DropAllUses(IRNode::Region(region)))
}

/// The edit that appends the blocks of a region to another.
pub fn append_blocks<O, B>(
    program: &Program<O, B>,
    made: &[Option<Entity>],
    donee: RegionAt,
    donor: RegionAt,
) -> Option<DirectEdit>
    ensures { result ≡ of_both direct.AppendBlocks (region_named program.now made.now donee)
        (region_named program.now made.now donor) }
{
    let donee = naming::region(program, made, donee)?;
    let donor = naming::region(program, made, donor)?;
    Some(DirectEdit::AppendBlocks(donee, donor))
}

/// The edit that puts another value in place of a value.
pub fn replace_all<O, B>(
    program: &Program<O, B>,
    made: &[Option<Entity>],
    value: ValueAt,
    other: ValueAt,
) -> Option<DirectEdit>
    ensures { result ≡ of_both direct.ReplaceAllUsesWith (value_named program.now made.now value)
        (value_named program.now made.now other) }
{
    let value = naming::value_in_program(program, made, value)?;
    let other = naming::value_in_program(program, made, other)?;
    Some(DirectEdit::ReplaceAllUsesWith(value, other))
}
