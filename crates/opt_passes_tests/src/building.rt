//! Operations in operations.
use ir_base::GrowError;
use ir_context::{BlockCalls, BlockLists, OperationCalls, OperationLists, RegionCalls};
use ir_program::{BasicBlock, IRNode, Operation, Ptr};
use opt_tiny::Bare;
use pass_managers_tests::items::{Item, ItemContext};
use std::alloc::Global;

/// An operation with one region, and the block there.
#[derive(Clone, Copy)]
pub struct Nest {
    pub op: Ptr<Operation>,
    pub block: Ptr<BasicBlock>,
}

/// An operation with this number and with one region of one block.
pub fn make_nest(alloc: Global, ctx: &mut ItemContext, number: u64) -> Result<Nest, GrowError> {
    let op = ctx.new_operation(alloc, Item { number }, &[], &[], &[], 1)?;
    let block = ctx.new_block(alloc, Bare, &[])?;
    if op.is_live(ctx) && block.is_live(ctx) {
        if op.num_regions(ctx) > 0 {
            let region = op.get_region(ctx, 0);
            if region.is_live(ctx)
                && !block.is_linked(ctx)
                && !ctx.is_inside(IRNode::Region(region), IRNode::BasicBlock(block))
            {
                block.insert_at_back(ctx, region);
            }
        }
    }
    Ok(Nest { op, block })
}

/// Puts an operation at the end of a block, where it can stand there.
pub fn put(ctx: &mut ItemContext, op: Ptr<Operation>, block: Ptr<BasicBlock>) {
    if op.is_live(ctx) && block.is_live(ctx) {
        if !op.is_linked(ctx) && !ctx.is_inside(IRNode::BasicBlock(block), IRNode::Operation(op)) {
            op.insert_at_back(ctx, block);
        }
    }
}

/// Puts an operation with this number at the end of a block, where it can stand there; it leads to the block itself, where it
/// is to lead somewhere.
pub fn put_item(
    alloc: Global,
    ctx: &mut ItemContext,
    number: u64,
    block: Ptr<BasicBlock>,
    leads: bool,
) -> Result<(), GrowError> {
    let item = Item { number };
    let op = if leads && block.is_live(ctx) {
        ctx.new_operation(alloc, item, &[], &[], &[block], 0)?
    } else {
        ctx.new_operation(alloc, item, &[], &[], &[], 0)?
    };
    put(ctx, op, block);
    Ok(())
}
