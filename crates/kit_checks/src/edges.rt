//! The edges of operations: where they lead, and what is handed on along them.
ghost use Rattle.std.specs.Prelude.{◌≡◌, ◌↔◌, ◌+◌, ◌≤◌, ◌<◌, ◌^◌, IsSome, IsTrue, length, min, slice_index};
ghost use Rattle.ir_program.specs.Lists.{StandsInRegion};
ghost use Rattle.ir_program.specs.Program.{block_at, operation_at};
ghost use Rattle.ir_program.specs.Rows.{operands_at, successors_at};
ghost use Rattle.kit_checks.specs.Handing.{AllFit, EdgesHandOn, EdgesStay, IsBeside, RunFits, SegmentsFit};
ghost use Rattle.kit_checks.specs.Reading.{OfSite, OfTree};
ghost use Rattle.kit_checks.specs.Rules.{EdgesFit};
ghost use Rattle.kit_checks.specs.Words.{Every, segment_sizes, sizes_or_none};
ghost use Rattle.kit_checks.specs.World.{world_of};

use crate::operands::operand_type;
use crate::reading::{kind_of, sizes_under};
use crate::types::{TypeTest, argument_count, argument_type, type_passes};
use ir_context::{Context, OperandCalls, SuccessorCalls};
use ir_program::{BasicBlock, Operation, Program, Ptr, Region};
use kit::Kit;
use kit_ops::{KitOp, keys};

/// Whether a block is in a region.
fn is_in_region<O, B>(program: &Program<O, B>, block: Ptr<BasicBlock>, region: Ptr<Region>) -> bool
    requires { IsSome (block_at program.now block) }
    ensures { IsTrue result ↔ StandsInRegion program.now block region }
{
    match program.parent_region(block) {
        Some(own) => own == region,
        None => false,
    }
}

/// Whether a block is in the region that an operation is in.
fn is_beside<O, B>(program: &Program<O, B>, op: Ptr<Operation>, block: Ptr<BasicBlock>) -> bool
    requires op { IsSome (operation_at program.now op) }
    requires block { IsSome (block_at program.now block) }
    ensures { IsTrue result ↔ IsBeside program.now op block }
{
    match program.parent_block(op) {
        Some(own) => match program.parent_region(own) {
            Some(region) => is_in_region(program, block, region),
            None => false,
        },
        None => false,
    }
}

/// Whether all successors of an operation are in the region that it is in.
fn are_beside<O, B>(program: &Program<O, B>, op: Ptr<Operation>) -> bool
    requires { IsSome (operation_at program.now op) }
    ensures { IsTrue result ↔ Every (IsBeside program.now op) (successors_at program.now op) }
{
    for index in 0..program.successor_count(op) {
        if !is_beside(program, op, program.successor(op, index)) {
            return false;
        }
    }
    true
}

/// Whether all successors of an operation are in the region that it is in, which for the root is none.
fn edges_stay(ctx: &Context<Kit>, root: Ptr<Operation>, op: Ptr<Operation>) -> bool
    requires { IsSome (operation_at ctx.now.program op) }
    ensures { OfSite ctx.now.program root op (λ s. IsTrue result ↔ EdgesStay s) }
{
    let program = ctx.program();
    program.know_lists();
    if op == root {
        return program.successor_count(op) == 0;
    }
    are_beside(program, op)
}

/// Whether some operands in a row have the types of a block's arguments, in number and order.
fn fit_arguments(
    ctx: &Context<Kit>,
    op: Ptr<Operation>,
    first: usize,
    count: usize,
    block: Ptr<BasicBlock>,
) -> bool
    requires block { IsSome (block_at ctx.now.program block) }
    requires within { first + count ≤ length (operands_at ctx.now.program op) }
    requires few { first + count < 2 ^ 64 }
    ensures { IsTrue result ↔ RunFits (world_of ctx.now) ctx.now.program op first count block }
{
    if argument_count(ctx, block) != count {
        return false;
    }
    for index in 0..count {
        let ty = argument_type(ctx, block, index);
        if !type_passes(
            ctx,
            TypeTest::Same(ty),
            operand_type(ctx, op, first + index),
        ) {
            return false;
        }
    }
    true
}

/// Whether all operands have the types of the arguments of each block that an edge leads to.
fn all_fit(ctx: &Context<Kit>, op: Ptr<Operation>) -> bool
    requires { IsSome (operation_at ctx.now.program op) }
    ensures { IsTrue result ↔ AllFit (world_of ctx.now) ctx.now.program op }
{
    let count = op.get_num_operands(ctx);
    for index in 0..op.get_num_successors(ctx) {
        if !fit_arguments(ctx, op, 0, count, op.get_successor(ctx, index)) {
            return false;
        }
    }
    true
}

/// The size of a segment, but at most so many: none where no size is given.
fn size_at(sizes: &[u32], index: usize, most: usize) -> usize
    ensures { result ≡ min (slice_index sizes.now index) most }
{
    match sizes.get(index) {
        Some(size) => (*size as usize).min(most),
        None => 0,
    }
}

/// Whether for each edge the operands of its segment, of those behind the first one, have the types of the arguments of the
/// block that it leads to.
fn segments_fit(ctx: &Context<Kit>, op: Ptr<Operation>, sizes: &[u32]) -> bool
    requires { IsSome (operation_at ctx.now.program op) }
    ensures { IsTrue result ↔ SegmentsFit (world_of ctx.now) ctx.now.program op sizes.now }
{
    let operands = op.get_num_operands(ctx);
    let mut first = size_at(sizes, 0, operands);
    for index in 0..op.get_num_successors(ctx) {
        let count = size_at(sizes, index + 1, operands - first);
        if !fit_arguments(ctx, op, first, count, op.get_successor(ctx, index)) {
            return false;
        }
        first += count;
    }
    true
}

/// The sizes of the segments of an operation's operands; none where it doesn't say them.
fn sizes_of<'a>(ctx: &'a Context<Kit>, op: Ptr<Operation>) -> &'a [u32]
    requires { IsSome (operation_at ctx.now.program op) }
    ensures { OfTree ctx.now.program op (λ u. sizes_or_none (segment_sizes (world_of ctx.now) u) ≡ result.now) }
{
    match sizes_under(ctx, op, keys::SEGMENT_SIZES) {
        Some(sizes) => sizes.as_slice(),
        None => &[],
    }
}

/// Whether what an operation hands on along each edge has the types of the arguments of the block that it leads to.
fn edges_hand_on(ctx: &Context<Kit>, op: Ptr<Operation>) -> bool
    requires { IsSome (operation_at ctx.now.program op) }
    ensures { OfTree ctx.now.program op (λ u. IsTrue result ↔ EdgesHandOn (world_of ctx.now) ctx.now.program u) }
{
    match kind_of(ctx, op) {
        KitOp::Br => all_fit(ctx, op),
        KitOp::CondBr => segments_fit(ctx, op, sizes_of(ctx, op)),
        _ => true,
    }
}

/// Whether each edge of an operation leads to a block of its region, and hands on operands of the types of the
/// arguments there.
#[inline(always)]
pub(crate) fn edges_fit(ctx: &Context<Kit>, root: Ptr<Operation>, op: Ptr<Operation>) -> bool
    requires { IsSome (operation_at ctx.now.program op) }
    ensures { OfSite ctx.now.program root op (λ s. IsTrue result ↔ EdgesFit (world_of ctx.now) s) }
{
    if !edges_stay(ctx, root, op) {
        return false;
    }
    edges_hand_on(ctx, op)
}
