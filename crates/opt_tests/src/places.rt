//! Places in a program where an optimisation begins, and what is asked for there.
ghost use Rattle.std.specs.Prelude.{IsSome, OnOk};
ghost use Rattle.ir_program.specs.Lists.{IsLinkedBlock};
ghost use Rattle.ir_program.specs.Program.{operation_at, region_at};
ghost use Rattle.opt_inside.specs.facts.ByNumber.{LeadsBelow};
ghost use Rattle.opt_inside.specs.Edges.{FitsEdgesBelow, HasLocalEdgesBelow};
ghost use Rattle.opt_inside.specs.reach.Edges.{FitsEdgesFrom, HasLocalEdgesFrom};
ghost use Rattle.opt_inside.specs.declared.reach.starts.Start.TheVariants as start;
ghost use Rattle.opt_tiny.specs.Meaning.{tiny};

use ir_context::{BlockCalls, BlockLists, OperationCalls, RegionCalls, TypedProgram};
use ir_opts::{
    Meanings, Start, fits_edges_from, has_local_edges_below, has_local_edges_from, know_edges_under,
};
use ir_program::{BasicBlock, Operation, Ptr, Region};
use opt_tiny::{OneType, Tiny, Tree, Unread};
use std::alloc::Global;

/// A place in a program.
#[derive(Clone, Copy)]
pub enum Place {
    /// The outermost operation.
    Operation,
    /// The first region of it.
    Region,
    /// The first block there.
    Block,
    /// The first region of the first operation there.
    InnerRegion,
}

/// The first region of an operation.
fn first_region(ctx: &Tree, op: Ptr<Operation>) -> Result<Ptr<Region>, Unread> {
    if !op.is_live(ctx) {
        return Err(Unread::Text);
    }
    ctx.program().region(op, 0).ok_or(Unread::Text)
}

/// The first block of a region.
fn first_block(ctx: &Tree, region: Ptr<Region>) -> Result<Ptr<BasicBlock>, Unread> {
    if !region.is_live(ctx) {
        return Err(Unread::Text);
    }
    ctx.program().first_block(region).ok_or(Unread::Text)
}

/// The first operation of a block.
fn first_operation(ctx: &Tree, block: Ptr<BasicBlock>) -> Result<Ptr<Operation>, Unread> {
    if !block.is_live(ctx) {
        return Err(Unread::Text);
    }
    ctx.program().first_operation(block).ok_or(Unread::Text)
}

/// Where an optimisation begins that begins at a place of a program.
pub fn start_at(ctx: &Tree, op: Ptr<Operation>, place: Place) -> Result<Start, Unread> {
    match place {
        Place::Operation => Ok(Start::Operation(op)),
        Place::Region => Ok(Start::Region(first_region(ctx, op)?)),
        Place::Block => {
            let region = first_region(ctx, op)?;
            Ok(Start::Block(first_block(ctx, region)?))
        }
        Place::InnerRegion => {
            let region = first_region(ctx, op)?;
            let block = first_block(ctx, region)?;
            let inner = first_operation(ctx, block)?;
            Ok(Start::Region(first_region(ctx, inner)?))
        }
    }
}

/// Tests the edges under the place where an optimisation begins.
fn test_edges(alloc: Global, ctx: &Tree, start: Start) -> Result<(), Unread>
    ensures edges { OnOk result (HasLocalEdgesFrom tiny.is_terminator ctx.now.program start) }
    ensures fits { OnOk result (FitsEdgesFrom tiny ctx.now.program start) }
{
    if !has_local_edges_from::<Tiny>(ctx.program(), start) {
        return Err(Unread::Text);
    }
    if !fits_edges_from::<Tiny>(alloc, ctx.program(), start)? {
        return Err(Unread::Text);
    }
    Ok(())
}

/// Tests what the whole optimisations of a dialect ask for below an operation.
pub fn test_below<D: Meanings>(
    alloc: Global,
    ctx: &TypedProgram<D::Operation, D::Block, OneType>,
    op: Ptr<Operation>,
) -> Result<(), Unread>
    ensures live { OnOk result (IsSome (operation_at ctx.now.program op)) }
    ensures edges { OnOk result (HasLocalEdgesBelow D.meaning.is_terminator ctx.now.program op) }
    ensures leads { OnOk result (LeadsBelow ctx.now.program op) }
    ensures fits { OnOk result (FitsEdgesBelow D.meaning ctx.now.program op) }
{
    if !op.is_live(ctx) || !has_local_edges_below::<D>(ctx.program(), op) {
        return Err(Unread::Text);
    }
    know_edges_under::<D>(ctx.program(), op);
    if !fits_edges_from::<D>(alloc, ctx.program(), Start::Operation(op))? {
        return Err(Unread::Text);
    }
    Ok(())
}

/// Tests what is asked for where an optimisation begins at an operation.
pub fn test_op(alloc: Global, ctx: &Tree, op: Ptr<Operation>) -> Result<(), Unread>
    ensures live { OnOk result (IsSome (operation_at ctx.now.program op)) }
    ensures edges { OnOk result (HasLocalEdgesFrom tiny.is_terminator ctx.now.program (start.Operation op)) }
    ensures fits { OnOk result (FitsEdgesFrom tiny ctx.now.program (start.Operation op)) }
{
    if !op.is_live(ctx) {
        return Err(Unread::Text);
    }
    test_edges(alloc, ctx, Start::Operation(op))
}

/// Tests what is asked for where an optimisation begins at a block.
pub fn test_block(alloc: Global, ctx: &Tree, block: Ptr<BasicBlock>) -> Result<(), Unread>
    ensures linked { OnOk result (IsLinkedBlock ctx.now.program block) }
    ensures edges { OnOk result (HasLocalEdgesFrom tiny.is_terminator ctx.now.program (start.Block block)) }
    ensures fits { OnOk result (FitsEdgesFrom tiny ctx.now.program (start.Block block)) }
{
    if !block.is_live(ctx) || !block.is_linked(ctx) {
        return Err(Unread::Text);
    }
    test_edges(alloc, ctx, Start::Block(block))
}

/// Tests what is asked for where an optimisation begins at a region.
pub fn test_region(alloc: Global, ctx: &Tree, region: Ptr<Region>) -> Result<(), Unread>
    ensures live { OnOk result (IsSome (region_at ctx.now.program region)) }
    ensures edges { OnOk result (HasLocalEdgesFrom tiny.is_terminator ctx.now.program (start.Region region)) }
    ensures fits { OnOk result (FitsEdgesFrom tiny ctx.now.program (start.Region region)) }
{
    if !region.is_live(ctx) {
        return Err(Unread::Text);
    }
    test_edges(alloc, ctx, Start::Region(region))
}
