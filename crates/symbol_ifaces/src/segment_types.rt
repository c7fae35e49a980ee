//! The interface that says of a segment's operands which interface their types implement.
ghost use Rattle.std.specs.Prelude.{◌↔◌, IfErr, IsSome, IsTrue};
ghost use Rattle.ir_names.specs.declared.interfaces.OpInterface.TheVariants as interface;
ghost use Rattle.ir_names.specs.declared.interfaces.TypeTest.TheVariants.{Interface};
ghost use Rattle.ir_program.specs.Program.{operation_at};
ghost use Rattle.ir_types.specs.Interned.{passes};
ghost use Rattle.op_ifaces.specs.Rules.{AcceptsExactly};
ghost use Rattle.builtin_ifaces.specs.Segments.{SegmentPasses};
ghost use Rattle.symbol_ifaces.specs.SegmentFaults.{IsFaultOf, IsThere};

use builtin_ifaces::{BuiltinDialect, OperandSegmentInterface, verify_interface};
use ir_context::Context;
use ir_names::{OpInterface, TypeInterface, TypeTest};
use ir_program::{Operation, Ptr};
use ir_queries::{OpInterfaceMarker, TypeInterfaceMarker};
use op_ifaces::TypeInterfaceImplsErr;
use std::marker::PhantomData;
use thiserror::Error;

/// Why the operands of a segment aren't as wanted.
#[derive(Clone, Copy, Debug, PartialEq, Eq, Error)]
pub enum SegmentNImplsTyErr {
    /// The operands aren't in segments, or there are too few segments.
    #[error("there is no segment {0}")]
    SegmentNotFound(usize),
    /// The segment is there, but the type of one of its operands doesn't implement the interface.
    #[error(transparent)]
    Impls(TypeInterfaceImplsErr),
}

/// Whether the operands are in segments, and one has this number.
fn has_segment<D: BuiltinDialect>(op: Ptr<Operation>, ctx: &Context<D>, s: usize) -> bool
    requires { IsSome (operation_at ctx.now.program op) }
    ensures { IsTrue result ↔ IsThere D.held_sizes D.segment_count ctx.now.program op s }
{
    match OperandSegmentInterface::verify(op, ctx) {
        Ok(()) => s < OperandSegmentInterface::num_segments(op, ctx),
        Err(_) => false,
    }
}

/// What is said of the operands of a segment that aren't as wanted.
fn fault<D: BuiltinDialect>(
    op: Ptr<Operation>,
    ctx: &Context<D>,
    s: usize,
    interface: TypeInterface,
) -> SegmentNImplsTyErr
    requires { IsSome (operation_at ctx.now.program op) }
    ensures { IsFaultOf D.held_sizes D.segment_count ctx.now.program op s result }
{
    if has_segment(op, ctx, s) {
        return SegmentNImplsTyErr::Impls(TypeInterfaceImplsErr::Operand(interface));
    }
    SegmentNImplsTyErr::SegmentNotFound(s)
}

/// The types of the operands of the segment with number `N` implement the interface that `I` stands for.
pub struct SegmentNImplsTy<const N: usize, I>(PhantomData<I>);

impl<const N: usize, I: TypeInterfaceMarker> OpInterfaceMarker for SegmentNImplsTy<N, I> {
    ghost INTERFACE = { interface.SegmentN N (Interface I.INTERFACE) };

    const INTERFACE: OpInterface = OpInterface::SegmentN(N, TypeTest::Interface(I::INTERFACE));
}

impl<const N: usize, I: TypeInterfaceMarker> SegmentNImplsTy<N, I> {
    /// Whether there is such a segment, and they do.
    ///
    /// # Errors
    /// `SegmentNotFound` exactly where there is no such segment.
    pub fn verify<D: BuiltinDialect>(
        op: Ptr<Operation>,
        ctx: &Context<D>,
    ) -> Result<(), SegmentNImplsTyErr>
        requires { IsSome (operation_at ctx.now.program op) }
        ensures exact { AcceptsExactly result (SegmentPasses D.held_sizes D.segment_count ctx.now.program op
            (passes (λ key. D.type_has key I.INTERFACE) ctx.now.types) N) }
        ensures fault { IfErr result (IsFaultOf D.held_sizes D.segment_count ctx.now.program op N) }
    {
        let wanted = OpInterface::SegmentN(N, TypeTest::Interface(I::INTERFACE));
        match verify_interface(wanted, op, ctx) {
            Ok(()) => Ok(()),
            Err(_) => Err(fault(op, ctx, N, I::INTERFACE)),
        }
    }
}
