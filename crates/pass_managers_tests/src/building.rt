//! Operations in operations.
use crate::items::{Item, ItemContext};
use crate::tally::{Tally, Told};
use ir_base::GrowError;
use ir_context::{BlockCalls, BlockLists, OperationCalls, OperationLists, RegionCalls};
use ir_program::{IRNode, Operation, Ptr};
use opt_dialect::IRStatus;
use opt_tiny::Bare;
use pass_managers::Passes;
use std::alloc::{AllocError, Global};

/// An operation with this number, and with one region of one block with so many operations as there are numbers.
pub fn build(
    alloc: Global,
    ctx: &mut ItemContext,
    number: u64,
    numbers: &[u64],
) -> Result<Ptr<Operation>, GrowError> {
    let op = ctx.new_operation(alloc, Item { number }, &[], &[], &[], 1)?;
    if op.is_live(ctx) {
        if op.num_regions(ctx) > 0 {
            let region = op.get_region(ctx, 0);
            let block = ctx.new_block(alloc, Bare, &[])?;
            if region.is_live(ctx) && block.is_live(ctx) {
                if !block.is_linked(ctx)
                    && !ctx.is_inside(IRNode::Region(region), IRNode::BasicBlock(block))
                {
                    block.insert_at_back(ctx, region);
                    for inner in numbers {
                        let child = ctx.new_operation(
                            alloc,
                            Item { number: *inner },
                            &[],
                            &[],
                            &[],
                            0,
                        )?;
                        if child.is_live(ctx) && block.is_live(ctx) {
                            if !child.is_linked(ctx)
                                && !ctx.is_inside(
                                    IRNode::BasicBlock(block),
                                    IRNode::Operation(child),
                                )
                            {
                                child.insert_at_back(ctx, block);
                            }
                        }
                    }
                }
            }
        }
    }
    Ok(op)
}

/// A pass of this name that answers this.
pub fn tally(alloc: Global, name: &str, told: Told) -> Result<Tally, AllocError> {
    Ok(Tally {
        name: String::from_str(alloc, name)?,
        told,
        runs: 0,
    })
}

/// Two passes that change nothing.
pub fn two(alloc: Global) -> Result<Passes<Tally>, AllocError> {
    let mut passes = Passes::new(alloc);
    passes.add_pass(tally(alloc, "one", Told::Status(IRStatus::Unchanged))?)?;
    passes.add_pass(tally(alloc, "two", Told::Status(IRStatus::Changed))?)?;
    Ok(passes)
}
