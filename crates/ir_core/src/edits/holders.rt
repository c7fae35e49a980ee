//! Edits of regions, erasing, and dropping uses.
ghost use Rattle.std.specs.Prelude.{◌↔◌, IsTrue};
ghost use Rattle.ir_program.specs.Lists.{IsLiveNode};
ghost use Rattle.ir_core.specs.edits.HolderEdits.{AnswersAddRegion, AnswersEraseRegion, AnswersEraseOperation, AnswersEraseBlock, AnswersDropAllUses, AnswersMoveRegionToOp};

use crate::edits::Entity;
use ir_context::{
    BlockCalls, BlockErasing, CoreError, OperationCalls, OperationErasing, RegionCalls, TypeTable,
    TypedProgram,
};
use ir_program::{BasicBlock, IRNode, Operation, Ptr, Region};

/// Gives an operation one region more, with no block.
pub fn add_region<O: Drop, B: Drop, T: TypeTable>(
    ctx: &mut TypedProgram<O, B, T>,
    op: Ptr<Operation>,
) -> Result<Option<Entity>, CoreError>
    ensures { AnswersAddRegion ctx.old op ctx.new result }
{
    if !op.is_live(ctx) {
        return Err(CoreError::EditNotAllowed);
    }
    let region = ctx.add_region(op)?;
    Ok(Some(Entity::Region(region)))
}

/// Erases the region at an index of an operation with all that stands in it.
pub fn erase_region<O: Drop, B: Drop, T: TypeTable>(
    ctx: &mut TypedProgram<O, B, T>,
    op: Ptr<Operation>,
    index: usize,
) -> Result<Option<Entity>, CoreError>
    ensures { AnswersEraseRegion ctx.old op index ctx.new result }
{
    if !op.is_live(ctx) || index >= op.num_regions(ctx) {
        return Err(CoreError::EditNotAllowed);
    }
    let region = op.get_region(ctx, index);
    if !ctx.can_erase(IRNode::Region(region)) {
        return Err(CoreError::EditNotAllowed);
    }
    ctx.erase_region(region);
    Ok(None)
}

/// Erases an operation with all that stands in it.
pub fn erase_operation<O: Drop, B: Drop, T: TypeTable>(
    ctx: &mut TypedProgram<O, B, T>,
    op: Ptr<Operation>,
) -> Result<Option<Entity>, CoreError>
    ensures { AnswersEraseOperation ctx.old op ctx.new result }
{
    if !op.is_live(ctx) || !ctx.can_erase(IRNode::Operation(op)) {
        return Err(CoreError::EditNotAllowed);
    }
    op.erase(ctx);
    Ok(None)
}

/// Erases a block with all that stands in it.
pub fn erase_block<O: Drop, B: Drop, T: TypeTable>(
    ctx: &mut TypedProgram<O, B, T>,
    block: Ptr<BasicBlock>,
) -> Result<Option<Entity>, CoreError>
    ensures { AnswersEraseBlock ctx.old block ctx.new result }
{
    if !block.is_live(ctx) || !ctx.can_erase(IRNode::BasicBlock(block)) {
        return Err(CoreError::EditNotAllowed);
    }
    block.erase(ctx);
    Ok(None)
}

/// Whether the handle leads to an operation, a region or a block.
fn is_live_node<O, B, T: TypeTable>(ctx: &TypedProgram<O, B, T>, node: IRNode) -> bool
    ensures { IsTrue result ↔ IsLiveNode ctx.now.program node }
{
    match node {
        IRNode::Operation(op) => op.is_live(ctx),
        IRNode::Region(region) => region.is_live(ctx),
        IRNode::BasicBlock(block) => block.is_live(ctx),
    }
}

/// Takes away the operands and successors of all operations inside an entity, itself counted.
pub fn drop_all_uses<O, B, T: TypeTable>(
    ctx: &mut TypedProgram<O, B, T>,
    node: IRNode,
) -> Result<Option<Entity>, CoreError>
    ensures { AnswersDropAllUses ctx.old node ctx.new result }
{
    if !is_live_node(ctx, node) {
        return Err(CoreError::EditNotAllowed);
    }
    ctx.drop_all_uses(node);
    Ok(None)
}

/// Moves a region behind the regions of an operation.
pub fn move_region_to_op<O, B, T: TypeTable>(
    ctx: &mut TypedProgram<O, B, T>,
    region: Ptr<Region>,
    op: Ptr<Operation>,
) -> Result<Option<Entity>, CoreError>
    ensures { AnswersMoveRegionToOp ctx.old region op ctx.new result }
{
    if !region.is_live(ctx) || !op.is_live(ctx) {
        return Err(CoreError::EditNotAllowed);
    }
    if ctx.is_inside(IRNode::Operation(op), IRNode::Region(region)) {
        return Err(CoreError::EditNotAllowed);
    }
    // Each region stands in an operation, from which it is moved.
    let _holder = region.get_parent_op(ctx);
    region.move_to_op(ctx, op);
    Ok(None)
}
