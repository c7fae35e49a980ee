//! Edits of the lists of regions.
ghost use Rattle.std.specs.Prelude.{◌↔◌, IsSome, IsTrue};
ghost use Rattle.ir_program.specs.Program.{block_at};
ghost use Rattle.ir_program.specs.Lists.{IsUnlinkedBlock};
ghost use Rattle.ir_core.specs.edits.BlockListEdits.{AnswersInsertBlockAfter, AnswersInsertBlockBefore, AnswersInsertBlockAtFront, AnswersInsertBlockAtBack, AnswersUnlinkBlock, AnswersAppendBlocks};

use crate::edits::Entity;
use ir_context::{
    BlockCalls, BlockLists, ContainsBlocks, CoreError, RegionCalls, TypeTable, TypedProgram,
};
use ir_program::{BasicBlock, IRNode, Ptr, Region};

/// Puts a block right after another.
pub fn insert_block_after<O, B, T: TypeTable>(
    ctx: &mut TypedProgram<O, B, T>,
    block: Ptr<BasicBlock>,
    mark: Ptr<BasicBlock>,
) -> Result<Option<Entity>, CoreError>
    ensures { AnswersInsertBlockAfter ctx.old block mark ctx.new result }
{
    if !can_stand(ctx, block) || !mark.is_live(ctx) || !mark.is_linked(ctx) {
        return Err(CoreError::EditNotAllowed);
    }
    if ctx.is_inside(IRNode::BasicBlock(mark), IRNode::BasicBlock(block)) {
        return Err(CoreError::EditNotAllowed);
    }
    block.insert_after(ctx, mark);
    Ok(None)
}

/// Puts a block right before another.
pub fn insert_block_before<O, B, T: TypeTable>(
    ctx: &mut TypedProgram<O, B, T>,
    block: Ptr<BasicBlock>,
    mark: Ptr<BasicBlock>,
) -> Result<Option<Entity>, CoreError>
    ensures { AnswersInsertBlockBefore ctx.old block mark ctx.new result }
{
    if !can_stand(ctx, block) || !mark.is_live(ctx) || !mark.is_linked(ctx) {
        return Err(CoreError::EditNotAllowed);
    }
    if ctx.is_inside(IRNode::BasicBlock(mark), IRNode::BasicBlock(block)) {
        return Err(CoreError::EditNotAllowed);
    }
    block.insert_before(ctx, mark);
    Ok(None)
}

/// Puts a block first in a region.
pub fn insert_block_at_front<O, B, T: TypeTable>(
    ctx: &mut TypedProgram<O, B, T>,
    block: Ptr<BasicBlock>,
    region: Ptr<Region>,
) -> Result<Option<Entity>, CoreError>
    ensures { AnswersInsertBlockAtFront ctx.old block region ctx.new result }
{
    if !can_stand(ctx, block) || !region.is_live(ctx) {
        return Err(CoreError::EditNotAllowed);
    }
    if ctx.is_inside(IRNode::Region(region), IRNode::BasicBlock(block)) {
        return Err(CoreError::EditNotAllowed);
    }
    block.insert_at_front(ctx, region);
    Ok(None)
}

/// Puts a block last in a region.
pub fn insert_block_at_back<O, B, T: TypeTable>(
    ctx: &mut TypedProgram<O, B, T>,
    block: Ptr<BasicBlock>,
    region: Ptr<Region>,
) -> Result<Option<Entity>, CoreError>
    ensures { AnswersInsertBlockAtBack ctx.old block region ctx.new result }
{
    if !can_stand(ctx, block) || !region.is_live(ctx) {
        return Err(CoreError::EditNotAllowed);
    }
    if ctx.is_inside(IRNode::Region(region), IRNode::BasicBlock(block)) {
        return Err(CoreError::EditNotAllowed);
    }
    block.insert_at_back(ctx, region);
    Ok(None)
}

/// Takes a block out of its region.
pub fn unlink_block<O, B, T: TypeTable>(
    ctx: &mut TypedProgram<O, B, T>,
    block: Ptr<BasicBlock>,
) -> Result<Option<Entity>, CoreError>
    ensures { AnswersUnlinkBlock ctx.old block ctx.new result }
{
    if !block.is_live(ctx) || !block.is_linked(ctx) {
        return Err(CoreError::EditNotAllowed);
    }
    block.unlink(ctx);
    Ok(None)
}

/// Moves the blocks of one region behind those of another.
#[tactic(auto, using(crate::proofs::EditsLemmas::Asked::region_elsewhere))]
pub fn append_blocks<O, B, T: TypeTable>(
    ctx: &mut TypedProgram<O, B, T>,
    donee: Ptr<Region>,
    donor: Ptr<Region>,
) -> Result<Option<Entity>, CoreError>
    ensures { AnswersAppendBlocks ctx.old donee donor ctx.new result }
{
    if !donee.is_live(ctx) || !donor.is_live(ctx) {
        return Err(CoreError::EditNotAllowed);
    }
    let (inner, outer) = (IRNode::Region(donee), IRNode::Region(donor));
    if ctx.is_inside(inner, outer) || ctx.is_inside(outer, inner) {
        return Err(CoreError::EditNotAllowed);
    }
    donee.append_linked_list(ctx, donor);
    Ok(None)
}

/// Whether the block is there and stands in no region, so that it may be put into one.
fn can_stand<O, B, T: TypeTable>(ctx: &TypedProgram<O, B, T>, block: Ptr<BasicBlock>) -> bool
    ensures { IsTrue result ↔ (IsSome (block_at ctx.now.program block) × IsUnlinkedBlock ctx.now.program block) }
{
    block.is_live(ctx) && !block.is_linked(ctx)
}
