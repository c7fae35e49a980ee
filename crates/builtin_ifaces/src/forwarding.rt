//! Which operands are forwarded along an edge, and whether the block at its end can take them.
ghost use Rattle.std.specs.Prelude.{◌≡◌, ◌↔◌, ◌+◌, ◌<◌, ◌≤◌, ℕ, IsSome, IsTrue, IfSome, Some, length};
ghost use Rattle.ir_program.specs.Program.{argument_count, arguments_at, block_at, operation_at, type_in};
ghost use Rattle.ir_program.specs.Rows.{operands_at};
ghost use Rattle.op_ifaces.specs.Rows.{row_type};
ghost use Rattle.op_ifaces.specs.declared.rows.Row.TheVariants.{Operands};
ghost use Rattle.builtin_ifaces.specs.Branches.{ForwardsRange};
ghost use Rattle.builtin_ifaces.specs.Segments.{HasSegment};

use crate::segments::{OperandSegmentInterface, find_segment};
use builtin_tables::{BuiltinDialect, SuccessorLayout};
use ir_context::{ArgumentCalls, Context, OperandCalls, TypeTable, TypedProgram, ValueCalls};
use ir_program::{BasicBlock, Operation, Ptr};
use std::ops::Range;

/// All operands from one on, if there are so many.
fn trailing<O, B, T: TypeTable>(
    op: Ptr<Operation>,
    ctx: &TypedProgram<O, B, T>,
    from: usize,
) -> Option<Range<usize>>
    requires { IsSome (operation_at ctx.now.program op) }
    ensures found { IfSome result (λ range.
        (range.start ≡ from) × (range.end ≡ length (operands_at ctx.now.program op)) × (from ≤ range.end)) }
    ensures none { from ≤ length (operands_at ctx.now.program op) → IsSome result }
{
    let count = op.get_num_operands(ctx);
    if from > count {
        return None;
    }
    Some(from..count)
}

/// The segment of the edge with this number, where the first edge has this segment; none where there are not so many.
fn segment_of_edge<D: BuiltinDialect>(
    op: Ptr<Operation>,
    ctx: &Context<D>,
    first: usize,
    s: usize,
) -> Option<Range<usize>>
    requires { IsSome (operation_at ctx.now.program op) }
    ensures found { IfSome result (λ range.
        HasSegment D.held_sizes D.segment_count ctx.now.program op (first + s) range.start range.end) }
    ensures only { (start end : _)
        → HasSegment D.held_sizes D.segment_count ctx.now.program op (first + s) start end
        → result ≡ Some (record { start = start; end = end }) }
    ensures order { IfSome result (λ range. range.start ≤ range.end) }
    ensures within { IfSome result (λ range. range.end ≤ length (operands_at ctx.now.program op)) }
{
    let count = OperandSegmentInterface::num_segments(op, ctx);
    if first >= count || s >= count - first {
        return None;
    }
    find_segment(op, ctx, first + s)
}

/// The operands that are forwarded along the edge with this number: from the start up to the end, which isn't among them.
/// None where there aren't those that the layout says.
pub(crate) fn forwarded<D: BuiltinDialect>(
    layout: SuccessorLayout,
    op: Ptr<Operation>,
    ctx: &Context<D>,
    s: usize,
) -> Option<Range<usize>>
    requires { IsSome (operation_at ctx.now.program op) }
    ensures found { IfSome result (λ range.
        ForwardsRange D.held_sizes D.segment_count ctx.now.program op layout s range.start range.end) }
    ensures only { (start end : _) → ForwardsRange D.held_sizes D.segment_count ctx.now.program op layout s start end
        → result ≡ Some (record { start = start; end = end }) }
    ensures order { IfSome result (λ range. range.start ≤ range.end) }
    ensures within { IfSome result (λ range. range.end ≤ length (operands_at ctx.now.program op)) }
{
    match layout {
        SuccessorLayout::Trailing { from } => trailing(op, ctx, from),
        SuccessorLayout::Segments { first } => segment_of_edge(op, ctx, first, s),
    }
}

/// Whether the operands from the first up to the end, which isn't among them, have the types of a block's arguments, which
/// are as many.
pub(crate) fn types_fit<O, B, T: TypeTable>(
    op: Ptr<Operation>,
    ctx: &TypedProgram<O, B, T>,
    first: usize,
    end: usize,
    block: Ptr<BasicBlock>,
) -> bool
    requires live { IsSome (operation_at ctx.now.program op) }
    requires block { IsSome (block_at ctx.now.program block) }
    requires many { first + argument_count ctx.now.program block ≡ end }
    requires within { end ≤ length (operands_at ctx.now.program op) }
    ensures { IsTrue result ↔ ((k : ℕ) → k < argument_count ctx.now.program block
        → row_type ctx.now.program op Operands (first + k) ≡ type_in (arguments_at ctx.now.program block) k) }
{
    for i in 0..block.get_num_arguments(ctx) {
        let forwarded = op.get_operand(ctx, first + i).get_type(ctx);
        if forwarded != ctx.program().argument_type(block, i) {
            return false;
        }
    }
    true
}
