//! Branches.
ghost use Rattle.std.specs.Prelude.{◌≡◌, ◌<◌, ◌≤◌, ◌+◌, IsSome, IfOk, IfSome, Some, length, slice_get};
ghost use Rattle.ir_names.specs.declared.interfaces.OpInterface.TheVariants as interface;
ghost use Rattle.ir_program.specs.Program.{block_at, operation_at};
ghost use Rattle.ir_program.specs.Rows.{operands_at, successors_at};
ghost use Rattle.ir_context.specs.Kept.{kind_at};
ghost use Rattle.op_ifaces.specs.Rules.{AcceptsExactly};
ghost use Rattle.builtin_ifaces.specs.Branches.{AreSuccessorOperands, BranchFits, SuccessorFits, SuccessorsFit, ForwardsRange};

use crate::forwarding::{forwarded, types_fit};
use crate::operand_ranges::operands_in;
use builtin_tables::{BuiltinDialect, SuccessorLayout};
use ir_context::{ArgumentCalls, Context, OperationCalls, SuccessorCalls};
use ir_names::OpInterface;
use ir_program::{BasicBlock, Operation, Ptr, Value};
use ir_queries::OpInterfaceMarker;
use std::alloc::{AllocError, Global};
use std::ops::Range;
use thiserror::Error;

/// Why what a branch forwards along an edge doesn't fit the block at its end.
#[derive(Clone, Copy, Debug, PartialEq, Eq, Error)]
pub enum BranchOpInterfaceVerifyErr {
    /// There aren't those operands that the layout says, or not as many as the block has arguments.
    #[error("the operands along edge {0} aren't as many as its block has arguments")]
    SuccessorOperandsMismatch(usize),
    /// One has another type than the block's argument.
    #[error("an operand along edge {0} has another type than the argument of its block")]
    SuccessorOperandTypeMismatch(usize),
}

/// Whether what is forwarded along the edge with this number fits the block at its end.
fn expect_edge<D: BuiltinDialect>(
    layout: SuccessorLayout,
    op: Ptr<Operation>,
    ctx: &Context<D>,
    s: usize,
    block: Ptr<BasicBlock>,
) -> Result<(), BranchOpInterfaceVerifyErr>
    requires operation { IsSome (operation_at ctx.now.program op) }
    requires block { IsSome (block_at ctx.now.program block) }
    ensures { AcceptsExactly result (SuccessorFits D.held_sizes D.segment_count ctx.now.program op layout s block) }
{
    let Some(range) = forwarded(layout, op, ctx, s) else {
        return Err(BranchOpInterfaceVerifyErr::SuccessorOperandsMismatch(s));
    };
    if range.end - range.start != block.get_num_arguments(ctx) {
        return Err(BranchOpInterfaceVerifyErr::SuccessorOperandsMismatch(s));
    }
    if types_fit(op, ctx, range.start, range.end, block) {
        return Ok(());
    }
    Err(BranchOpInterfaceVerifyErr::SuccessorOperandTypeMismatch(s))
}

/// Whether each edge fits its block, in a layout.
fn expect_edges<D: BuiltinDialect>(
    layout: SuccessorLayout,
    op: Ptr<Operation>,
    ctx: &Context<D>,
) -> Result<(), BranchOpInterfaceVerifyErr>
    requires { IsSome (operation_at ctx.now.program op) }
    ensures { AcceptsExactly result (SuccessorsFit D.held_sizes D.segment_count ctx.now.program op layout) }
{
    for s in 0..op.get_num_successors(ctx) {
        expect_edge(layout, op, ctx, s, op.get_successor(ctx, s))?;
    }
    Ok(())
}

/// The operation forwards operands to the blocks that it may go on to.
pub struct BranchOpInterface;

impl OpInterfaceMarker for BranchOpInterface {
    ghost INTERFACE = { interface.Branch };

    const INTERFACE: OpInterface = OpInterface::Branch;
}

impl BranchOpInterface {
    /// Whether along each edge operands of the types of its block's arguments are forwarded, in number and order.
    pub fn verify<D: BuiltinDialect>(
        op: Ptr<Operation>,
        ctx: &Context<D>,
    ) -> Result<(), BranchOpInterfaceVerifyErr>
        requires { IsSome (operation_at ctx.now.program op) }
        ensures { AcceptsExactly result (BranchFits D.held_sizes D.segment_count ctx.now.program op D.layout) }
    {
        expect_edges(D::successor_layout(op.kind(ctx)), op, ctx)
    }

    /// The indices of the operands that are forwarded along the edge with this number.
    pub fn successor_operand_range<D: BuiltinDialect>(
        op: Ptr<Operation>,
        ctx: &Context<D>,
        s: usize,
    ) -> Range<usize>
        requires operation { IsSome (operation_at ctx.now.program op) }
        requires rule { BranchFits D.held_sizes D.segment_count ctx.now.program op D.layout }
        requires within { s < length (successors_at ctx.now.program op) }
        ensures exact { IfSome (kind_at ctx.now.program op) (λ kind.
            ForwardsRange D.held_sizes D.segment_count ctx.now.program op (D.layout kind) s result.start result.end) }
        ensures order { result.start ≤ result.end }
        ensures within { result.end ≤ length (operands_at ctx.now.program op) }
    {
        match forwarded(D::successor_layout(op.kind(ctx)), op, ctx, s) {
            Some(range) => range,
            None => unreachable!(),
        }
    }

    /// The operands that are forwarded along the edge with this number, in order.
    ///
    /// # Errors
    /// There may be no memory for the list.
    pub fn successor_operands<D: BuiltinDialect>(
        alloc: Global,
        op: Ptr<Operation>,
        ctx: &Context<D>,
        s: usize,
    ) -> Result<Vec<Value>, AllocError>
        requires operation { IsSome (operation_at ctx.now.program op) }
        requires rule { BranchFits D.held_sizes D.segment_count ctx.now.program op D.layout }
        requires within { s < length (successors_at ctx.now.program op) }
        ensures { IfOk result (λ values. IfSome (kind_at ctx.now.program op) (λ kind.
            AreSuccessorOperands D.held_sizes D.segment_count ctx.now.program op (D.layout kind) s values.items)) }
    {
        let range = BranchOpInterface::successor_operand_range(op, ctx, s);
        operands_in(alloc, op, ctx, range.start, range.end)
    }
}
