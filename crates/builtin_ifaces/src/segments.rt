//! Operands in segments.
ghost use Rattle.std.specs.Prelude.{◌≡◌, ◌<◌, ◌≤◌, IsSome, IfErr, IfOk, IfSome, Some, length};
ghost use Rattle.ir_names.specs.declared.interfaces.OpInterface.TheVariants as interface;
ghost use Rattle.ir_program.specs.Program.{operation_at};
ghost use Rattle.ir_program.specs.Rows.{operands_at};
ghost use Rattle.op_ifaces.specs.Rules.{AcceptsExactly};
ghost use Rattle.builtin_ifaces.specs.Segments.{AreSegmentOperands, AreSegmentSizes, HasSegments, HasSegment, expected_segments, sizes_at};

use crate::attributes::sizes_under;
use crate::operand_ranges::operands_in;
use crate::sizes::{add_up, segment_at};
use builtin_tables::{BuiltinDialect, keys};
use ir_context::{Context, OperandCalls};
use ir_names::OpInterface;
use ir_program::{Operation, Ptr, Value};
use ir_queries::OpInterfaceMarker;
use std::alloc::{AllocError, Global};
use std::ops::Range;
use thiserror::Error;

/// Why the operands aren't in segments.
#[derive(Clone, Copy, Debug, PartialEq, Eq, Error)]
pub enum OperandSegmentInterfaceVerifyErr {
    /// There is no attribute that holds the sizes.
    #[error("no attribute builtin_operand_segment_sizes holds sizes of segments")]
    OperandSegmentSizesAttrErr,
    /// There are not as many sizes as segments.
    #[error("expected the sizes of {0} segments, but found {1}")]
    SegmentCountMismatch(usize, usize),
    /// The sizes don't add up to the number of operands.
    #[error("the sizes of the segments don't add up to {0}, the number of operands")]
    OperandSegmentSizesTotalMismatchErr(usize),
}

/// How many segments the dialect expects.
fn expected<D: BuiltinDialect>(op: Ptr<Operation>, ctx: &Context<D>) -> usize
    requires { IsSome (operation_at ctx.now.program op) }
    ensures { expected_segments D.held_sizes D.segment_count ctx.now.program op ≡ Some result }
{
    let data = ctx.program().payload(op);
    D::expected_num_segments(data.kind(), &data.notes.attributes)
}

/// The sizes of the segments that the operands are in.
fn expect_sizes<'a, D: BuiltinDialect>(
    op: Ptr<Operation>,
    ctx: &'a Context<D>,
) -> Result<&'a [u32], OperandSegmentInterfaceVerifyErr>
    requires { IsSome (operation_at ctx.now.program op) }
    ensures sizes { IfOk result (λ sizes. AreSegmentSizes D.held_sizes D.segment_count ctx.now.program op sizes.now) }
    ensures refused { IfErr result (λ _. HasSegments D.held_sizes D.segment_count ctx.now.program op → ⊥) }
{
    let Some(sizes) = sizes_under(op, ctx, keys::SEGMENT_SIZES) else {
        return Err(OperandSegmentInterfaceVerifyErr::OperandSegmentSizesAttrErr);
    };
    let wanted = expected(op, ctx);
    if sizes.len() != wanted {
        let found = sizes.len();
        return Err(OperandSegmentInterfaceVerifyErr::SegmentCountMismatch(wanted, found));
    }
    let count = op.get_num_operands(ctx);
    if !add_up(sizes, count) {
        return Err(OperandSegmentInterfaceVerifyErr::OperandSegmentSizesTotalMismatchErr(count));
    }
    Ok(sizes)
}

/// The operands of the segment with a number: from the start up to the end, which isn't among them. None where the operands
/// aren't in segments, or not in so many.
pub(crate) fn find_segment<D: BuiltinDialect>(
    op: Ptr<Operation>,
    ctx: &Context<D>,
    s: usize,
) -> Option<Range<usize>>
    requires { IsSome (operation_at ctx.now.program op) }
    ensures found { IfSome result (λ range.
        HasSegment D.held_sizes D.segment_count ctx.now.program op s range.start range.end) }
    ensures only { (start end : _) → HasSegment D.held_sizes D.segment_count ctx.now.program op s start end
        → result ≡ Some (record { start = start; end = end }) }
    ensures order { IfSome result (λ range. range.start ≤ range.end) }
    ensures within { IfSome result (λ range. range.end ≤ length (operands_at ctx.now.program op)) }
{
    match expect_sizes(op, ctx) {
        Ok(sizes) => segment_at(sizes, s, op.get_num_operands(ctx)),
        Err(_) => None,
    }
}

/// The operands are in segments, whose sizes an attribute holds.
pub struct OperandSegmentInterface;

impl OpInterfaceMarker for OperandSegmentInterface {
    ghost INTERFACE = { interface.OperandSegment };

    const INTERFACE: OpInterface = OpInterface::OperandSegment;
}

impl OperandSegmentInterface {
    /// Whether the sizes are there, as many as the dialect expects, and add up to the number of operands.
    pub fn verify<D: BuiltinDialect>(
        op: Ptr<Operation>,
        ctx: &Context<D>,
    ) -> Result<(), OperandSegmentInterfaceVerifyErr>
        requires { IsSome (operation_at ctx.now.program op) }
        ensures { AcceptsExactly result (HasSegments D.held_sizes D.segment_count ctx.now.program op) }
    {
        match expect_sizes(op, ctx) {
            Ok(_) => Ok(()),
            Err(fault) => Err(fault),
        }
    }

    /// How many segments the dialect expects, and where the operands are in segments, how many there are.
    pub fn num_segments<D: BuiltinDialect>(op: Ptr<Operation>, ctx: &Context<D>) -> usize
        requires { IsSome (operation_at ctx.now.program op) }
        ensures { expected_segments D.held_sizes D.segment_count ctx.now.program op ≡ Some result }
    {
        expected(op, ctx)
    }

    /// The sizes of the segments, in order.
    pub fn segment_sizes<D: BuiltinDialect>(op: Ptr<Operation>, ctx: &Context<D>) -> &[u32]
        requires operation { IsSome (operation_at ctx.now.program op) }
        requires rule { HasSegments D.held_sizes D.segment_count ctx.now.program op }
        ensures { AreSegmentSizes D.held_sizes D.segment_count ctx.now.program op result.now }
    {
        match expect_sizes(op, ctx) {
            Ok(sizes) => sizes,
            Err(_) => unreachable!(),
        }
    }

    /// The indices of the operands of a segment.
    pub fn segment_range<D: BuiltinDialect>(
        op: Ptr<Operation>,
        ctx: &Context<D>,
        s: usize,
    ) -> Range<usize>
        requires operation { IsSome (operation_at ctx.now.program op) }
        requires rule { HasSegments D.held_sizes D.segment_count ctx.now.program op }
        requires within { IfSome (expected_segments D.held_sizes D.segment_count ctx.now.program op) (λ n. s < n) }
        ensures exact { HasSegment D.held_sizes D.segment_count ctx.now.program op s result.start result.end }
        ensures order { result.start ≤ result.end }
        ensures within { result.end ≤ length (operands_at ctx.now.program op) }
    {
        match find_segment(op, ctx, s) {
            Some(range) => range,
            None => unreachable!(),
        }
    }

    /// The operands of a segment, in order.
    ///
    /// # Errors
    /// There may be no memory for the list.
    pub fn get_segment<D: BuiltinDialect>(
        alloc: Global,
        op: Ptr<Operation>,
        ctx: &Context<D>,
        s: usize,
    ) -> Result<Vec<Value>, AllocError>
        requires operation { IsSome (operation_at ctx.now.program op) }
        requires rule { HasSegments D.held_sizes D.segment_count ctx.now.program op }
        requires within { IfSome (expected_segments D.held_sizes D.segment_count ctx.now.program op) (λ n. s < n) }
        ensures { IfOk result (λ values.
            AreSegmentOperands D.held_sizes D.segment_count ctx.now.program op s values.items) }
    {
        let range = OperandSegmentInterface::segment_range(op, ctx, s);
        operands_in(alloc, op, ctx, range.start, range.end)
    }
}
