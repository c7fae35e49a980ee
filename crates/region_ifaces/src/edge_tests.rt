//! Tests of edges into the regions of an operation, between them, and out of them.
ghost use Rattle.std.specs.Prelude.{◌≡◌, ◌↔◌, ◌+◌, ◌<◌, ◌≤◌, ◌^◌, ℕ, IsSome, IsTrue, Some, length};
ghost use Rattle.ir_program.specs.Lists.{StandsInOperation};
ghost use Rattle.ir_program.specs.Program.{operation_at, type_in};
ghost use Rattle.ir_program.specs.Rows.{operands_at};
ghost use Rattle.region_ifaces.specs.RegionEdges.{IsPoint, IsRegionTerminator, IsSuccessor, operand_type, operation_of, receivers_of};

use crate::region_edges::{RegionBranchPoint, RegionEdge, RegionSuccessor, ValueRange};
use ir_context::{
    ArgumentCalls, BlockCalls, Context, OperandCalls, OperationCalls, RegionCalls, ResultCalls,
    TypeTable, TypedProgram, ValueCalls,
};
use ir_names::TypeHandle;
use ir_program::{Operation, Ptr, Region};
use ir_queries::BlockEdges;
use ir_types::DialectTables;

/// Whether an operation is the terminator of a block of a region of the other one.
fn is_region_terminator<D: DialectTables>(
    op: Ptr<Operation>,
    t: Ptr<Operation>,
    ctx: &Context<D>,
) -> bool
    ensures { IsTrue result ↔ IsRegionTerminator D.op_has ctx.now.program op t }
{
    if !t.is_live(ctx) {
        return false;
    }
    let Some(block) = t.get_parent_block(ctx) else {
        return false;
    };
    if block.get_terminator(ctx) != Some(t) {
        return false;
    }
    block.get_parent_op(ctx) == Some(op)
}

/// Whether a region is one of the operation's.
fn is_region_of<O, B, T: TypeTable>(
    op: Ptr<Operation>,
    region: Ptr<Region>,
    ctx: &TypedProgram<O, B, T>,
) -> bool
    ensures { IsTrue result ↔ StandsInOperation ctx.now.program region op }
{
    if !region.is_live(ctx) {
        return false;
    }
    region.get_parent_op(ctx) == Some(op)
}

/// Whether an edge may lead from the point.
pub(crate) fn is_point<D: DialectTables>(
    op: Ptr<Operation>,
    ctx: &Context<D>,
    point: RegionBranchPoint,
) -> bool
    ensures { IsTrue result ↔ IsPoint D.op_has ctx.now.program op point }
{
    match point {
        RegionBranchPoint::Parent => true,
        RegionBranchPoint::Terminator(t) => is_region_terminator(op, t, ctx),
    }
}

/// Whether an edge may lead there.
pub(crate) fn is_successor<O, B, T: TypeTable>(
    op: Ptr<Operation>,
    ctx: &TypedProgram<O, B, T>,
    target: RegionSuccessor,
) -> bool
    ensures { IsTrue result ↔ IsSuccessor ctx.now.program op target }
{
    match target {
        RegionSuccessor::Region(region) => is_region_of(op, region, ctx),
        RegionSuccessor::After => true,
    }
}

/// The operation whose operands are handed on from the point.
pub(crate) fn operation_of(op: Ptr<Operation>, point: RegionBranchPoint) -> Ptr<Operation>
    ensures { result ≡ operation_of op point }
{
    match point {
        RegionBranchPoint::Parent => op,
        RegionBranchPoint::Terminator(t) => t,
    }
}

/// How many values are given one where an edge leads.
fn receiver_count<O, B, T: TypeTable>(
    op: Ptr<Operation>,
    ctx: &TypedProgram<O, B, T>,
    target: RegionSuccessor,
) -> usize
    requires live { IsSome (operation_at ctx.now.program op) }
    requires target { IsSuccessor ctx.now.program op target }
    ensures { result ≡ length (receivers_of ctx.now.program op target) }
{
    match target {
        RegionSuccessor::Region(region) => match region.get_entry_block(ctx) {
            Some(block) => block.get_num_arguments(ctx),
            None => 0,
        },
        RegionSuccessor::After => op.get_num_results(ctx),
    }
}

/// The type of what is given a value where an edge leads, at an index.
fn receiver_type<O, B, T: TypeTable>(
    op: Ptr<Operation>,
    ctx: &TypedProgram<O, B, T>,
    target: RegionSuccessor,
    i: usize,
) -> TypeHandle
    requires live { IsSome (operation_at ctx.now.program op) }
    requires target { IsSuccessor ctx.now.program op target }
    requires within { i < length (receivers_of ctx.now.program op target) }
    ensures { type_in (receivers_of ctx.now.program op target) i ≡ Some result }
{
    match target {
        RegionSuccessor::Region(region) => match region.get_entry_block(ctx) {
            Some(block) => ctx.program().argument_type(block, i),
            None => unreachable!(),
        },
        RegionSuccessor::After => ctx.program().result_type(op, i),
    }
}

/// Whether the range is one of a row with this length.
pub(crate) fn is_within(range: ValueRange, length: usize) -> bool
    ensures within { IsTrue result ↔ (range.first + range.count ≤ length) }
    ensures small { IsTrue result → range.first + range.count < 2 ^ 64 }
{
    range.first <= length && range.count <= length - range.first
}

/// Whether as many receivers as operands are named, and these are there.
pub(crate) fn has_receivers<O, B, T: TypeTable>(
    op: Ptr<Operation>,
    ctx: &TypedProgram<O, B, T>,
    edge: RegionEdge,
) -> bool
    requires live { IsSome (operation_at ctx.now.program op) }
    requires target { IsSuccessor ctx.now.program op edge.target }
    ensures there { IsTrue result ↔ ((edge.operands.count ≡ edge.receivers.count)
        × (edge.receivers.first + edge.receivers.count ≤ length (receivers_of ctx.now.program op edge.target))) }
    ensures small { IsTrue result → edge.receivers.first + edge.receivers.count < 2 ^ 64 }
{
    edge.operands.count == edge.receivers.count
        && is_within(edge.receivers, receiver_count(op, ctx, edge.target))
}

/// Whether the operands that are handed on have the types of what is given them.
pub(crate) fn types_fit<O, B, T: TypeTable>(
    op: Ptr<Operation>,
    ctx: &TypedProgram<O, B, T>,
    edge: RegionEdge,
    from: Ptr<Operation>,
) -> bool
    requires live { IsSome (operation_at ctx.now.program op) }
    requires target { IsSuccessor ctx.now.program op edge.target }
    requires from { IsSome (operation_at ctx.now.program from) }
    requires operands { edge.operands.first + edge.operands.count ≤ length (operands_at ctx.now.program from) }
    requires many { edge.operands.count ≡ edge.receivers.count }
    requires receivers { edge.receivers.first + edge.receivers.count
        ≤ length (receivers_of ctx.now.program op edge.target) }
    requires small_operands { edge.operands.first + edge.operands.count < 2 ^ 64 }
    requires small_receivers { edge.receivers.first + edge.receivers.count < 2 ^ 64 }
    ensures { IsTrue result ↔ ((k : ℕ) → k < edge.operands.count
        → operand_type ctx.now.program from (edge.operands.first + k)
        ≡ type_in (receivers_of ctx.now.program op edge.target) (edge.receivers.first + k)) }
{
    for k in 0..edge.operands.count {
        let handed = from.get_operand(ctx, edge.operands.first + k).get_type(ctx);
        if handed != receiver_type(op, ctx, edge.target, edge.receivers.first + k) {
            return false;
        }
    }
    true
}
