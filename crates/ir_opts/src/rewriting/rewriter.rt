//! A rewriter: edits of a program, with a place where new operations go.
ghost use Rattle.std.specs.Prelude.{◌≡◌, ◌↔◌, IsSome, IsOk, IsTrue};
ghost use Rattle.ir_program.specs.Edits.{KeepsValues};
ghost use Rattle.ir_program.specs.Erased.{ErasesBlock, ErasesOperation, IsApart};
ghost use Rattle.ir_program.specs.ListEdits.{TakesOutOperation};
ghost use Rattle.ir_program.specs.Lists.{IsLinkedOperation, IsLiveNode, IsUnlinkedOperation};
ghost use Rattle.ir_program.specs.Program.{Program, block_at, operation_at, IsLiveValue};
ghost use Rattle.ir_program.specs.UseEdits.{ReplacesValue};
ghost use Rattle.ir_program.specs.declared.handles.IRNode.TheVariants.{Operation as OperationNode, BasicBlock as BlockNode};
ghost use Rattle.ir_opts.specs.rewriting.Points.{IsErasedPoint, PointIsIn, PointIsThere, LeavesErased, LeavesPoint, PutsAt};
ghost use Rattle.ir_opts.specs.declared.rewriting.point.OpInsertionPoint.TheVariants as point;

use crate::rewriting::point::OpInsertionPoint;
use ir_context::{
    BlockCalls, BlockErasing, OperationCalls, OperationErasing, OperationLists, TypeTable,
    TypedProgram, UseCalls,
};
use ir_program::{BasicBlock, IRNode, Operation, Ptr, Value};
use std::alloc::{AllocError, Global};

/// Edits a program, and keeps a place where the next operation goes.
#[derive(Clone, Copy, Debug, PartialEq, Eq, Default)]
pub struct Rewriter {
    point: OpInsertionPoint,
}

/// Puts an operation at a place.
fn put<O, B, T: TypeTable>(
    ctx: &mut TypedProgram<O, B, T>,
    op: Ptr<Operation>,
    point: OpInsertionPoint,
)
    requires place { PointIsThere ctx.old.program point }
    requires op { IsSome (operation_at ctx.old.program op) }
    requires unlinked { IsUnlinkedOperation ctx.old.program op }
    requires apart { PointIsIn ctx.old.program (OperationNode op) point → ⊥ }
    ensures put { PutsAt ctx.old.program ctx.new.program point op }
    ensures values { KeepsValues ctx.old.program ctx.new.program }
    ensures types { ctx.new.types ≡ ctx.old.types }
{
    match point {
        OpInsertionPoint::Unset => unreachable!(),
        OpInsertionPoint::AtBlockStart(block) => op.insert_at_front(ctx, block),
        OpInsertionPoint::AtBlockEnd(block) => op.insert_at_back(ctx, block),
        OpInsertionPoint::BeforeOperation(mark) => op.insert_before(ctx, mark),
        OpInsertionPoint::AfterOperation(mark) => op.insert_after(ctx, mark),
    }
}

/// Whether the place's block or operation is an entity or stands in it.
fn is_in<O, B, T: TypeTable>(
    ctx: &TypedProgram<O, B, T>,
    outer: IRNode,
    point: OpInsertionPoint,
) -> bool
    requires outer { IsLiveNode ctx.now.program outer }
    ensures { IsTrue result ↔ PointIsIn ctx.now.program outer point }
{
    match point {
        OpInsertionPoint::Unset => false,
        OpInsertionPoint::AtBlockStart(block) | OpInsertionPoint::AtBlockEnd(block) => {
            block.is_live(ctx) && ctx.is_inside(IRNode::BasicBlock(block), outer)
        }
        OpInsertionPoint::BeforeOperation(op) | OpInsertionPoint::AfterOperation(op) => {
            op.is_live(ctx) && ctx.is_inside(IRNode::Operation(op), outer)
        }
    }
}

/// Whether the place's block or operation is there no more.
fn is_erased<O, B, T: TypeTable>(ctx: &TypedProgram<O, B, T>, point: OpInsertionPoint) -> bool
    ensures { IsTrue result ↔ IsErasedPoint ctx.now.program point }
{
    match point {
        OpInsertionPoint::Unset => false,
        OpInsertionPoint::AtBlockStart(block) | OpInsertionPoint::AtBlockEnd(block) => {
            !block.is_live(ctx)
        }
        OpInsertionPoint::BeforeOperation(op) | OpInsertionPoint::AfterOperation(op) => {
            !op.is_live(ctx)
        }
    }
}

impl Rewriter {
    /// A rewriter without a place.
    pub fn new() -> Rewriter
        ensures { result.point ≡ point.Unset }
    {
        Rewriter {
            point: OpInsertionPoint::Unset,
        }
    }

    /// Where the next operation goes.
    pub fn insertion_point(&self) -> OpInsertionPoint
        ensures { result ≡ self.now.point }
    {
        self.point
    }

    /// The next operation goes right before this one.
    pub fn set_insertion_point_before_operation(&mut self, op: Ptr<Operation>)
        ensures { self.new.point ≡ point.BeforeOperation op }
    {
        self.point = OpInsertionPoint::BeforeOperation(op);
    }

    /// The next operation goes before all that are in the block.
    pub fn set_insertion_point_to_block_start(&mut self, block: Ptr<BasicBlock>)
        ensures { self.new.point ≡ point.AtBlockStart block }
    {
        self.point = OpInsertionPoint::AtBlockStart(block);
    }

    /// Puts an operation, which is in no block, where the point is. The point is right before it then.
    pub fn insert_operation<O, B, T: TypeTable>(
        &mut self,
        ctx: &mut TypedProgram<O, B, T>,
        op: Ptr<Operation>,
    )
        requires place { PointIsThere ctx.old.program self.old.point }
        requires op { IsSome (operation_at ctx.old.program op) }
        requires unlinked { IsUnlinkedOperation ctx.old.program op }
        requires apart { PointIsIn ctx.old.program (OperationNode op) self.old.point → ⊥ }
        ensures put { PutsAt ctx.old.program ctx.new.program self.old.point op }
        ensures point { self.new.point ≡ point.BeforeOperation op }
        ensures values { KeepsValues ctx.old.program ctx.new.program }
        ensures types { ctx.new.types ≡ ctx.old.types }
    {
        put(ctx, op, self.point);
        self.point = OpInsertionPoint::BeforeOperation(op);
    }

    /// Puts an operation, which is in no block, where the point is. The point is right after it then, so that the next one
    /// follows.
    pub fn append_operation<O, B, T: TypeTable>(
        &mut self,
        ctx: &mut TypedProgram<O, B, T>,
        op: Ptr<Operation>,
    )
        requires place { PointIsThere ctx.old.program self.old.point }
        requires op { IsSome (operation_at ctx.old.program op) }
        requires unlinked { IsUnlinkedOperation ctx.old.program op }
        requires apart { PointIsIn ctx.old.program (OperationNode op) self.old.point → ⊥ }
        ensures put { PutsAt ctx.old.program ctx.new.program self.old.point op }
        ensures point { self.new.point ≡ point.AfterOperation op }
        ensures values { KeepsValues ctx.old.program ctx.new.program }
        ensures types { ctx.new.types ≡ ctx.old.types }
    {
        put(ctx, op, self.point);
        self.point = OpInsertionPoint::AfterOperation(op);
    }

    /// Puts another value in place of each operand that is the value. The point stays. No memory is asked for.
    pub fn replace_value_uses_with<O, B, T: TypeTable>(
        &mut self,
        alloc: Global,
        ctx: &mut TypedProgram<O, B, T>,
        value: Value,
        other: Value,
    ) -> Result<(), AllocError>
        requires value { IsLiveValue ctx.old.program value }
        requires other { IsLiveValue ctx.old.program other }
        ensures succeeds { IsOk result }
        ensures replaced { ReplacesValue ctx.old.program ctx.new.program value other }
        ensures point { self.new ≡ self.old }
        ensures values { KeepsValues ctx.old.program ctx.new.program }
        ensures types { ctx.new.types ≡ ctx.old.types }
    {
        value.replace_all_uses_with(alloc, ctx, other)
    }

    /// Takes an operation out of its block and puts it at another place, which isn't at it or inside it. The point stays.
    pub fn move_operation<O, B, T: TypeTable>(
        &mut self,
        ctx: &mut TypedProgram<O, B, T>,
        op: Ptr<Operation>,
        to: OpInsertionPoint,
    )
        requires linked { IsLinkedOperation ctx.old.program op }
        requires place { PointIsThere ctx.old.program to }
        requires apart { PointIsIn ctx.old.program (OperationNode op) to → ⊥ }
        ensures moved { (middle : Program O B) × TakesOutOperation ctx.old.program middle op
            × PutsAt middle ctx.new.program to op }
        ensures point { self.new ≡ self.old }
        ensures values { KeepsValues ctx.old.program ctx.new.program }
        ensures types { ctx.new.types ≡ ctx.old.types }
    {
        op.unlink(ctx);
        put(ctx, op, to);
    }

    /// The point is unset where its place is in what is about to go.
    fn leave<O, B, T: TypeTable>(&mut self, ctx: &TypedProgram<O, B, T>, outer: IRNode)
        requires outer { IsLiveNode ctx.now.program outer }
        ensures point { LeavesPoint ctx.now.program outer self.old.point self.new.point }
    {
        if is_in(ctx, outer, self.point) {
            self.point = OpInsertionPoint::Unset;
        }
    }

    /// Erases an operation with all that is in it. No operation outside it takes a value or goes on to a block that is
    /// inside. A point at it or inside it is unset.
    pub fn erase_operation<O: Drop, B: Drop, T: TypeTable>(
        &mut self,
        ctx: &mut TypedProgram<O, B, T>,
        op: Ptr<Operation>,
    )
        requires operation { IsSome (operation_at ctx.old.program op) }
        requires apart { IsApart ctx.old.program (OperationNode op) }
        ensures erased { ErasesOperation ctx.old.program ctx.new.program op }
        ensures point { LeavesPoint ctx.old.program (OperationNode op) self.old.point self.new.point }
        ensures types { ctx.new.types ≡ ctx.old.types }
    {
        self.leave(ctx, IRNode::Operation(op));
        op.erase(ctx);
    }

    /// Erases a block with all that is in it, in the same way.
    pub fn erase_block<O: Drop, B: Drop, T: TypeTable>(
        &mut self,
        ctx: &mut TypedProgram<O, B, T>,
        block: Ptr<BasicBlock>,
    )
        requires block { IsSome (block_at ctx.old.program block) }
        requires apart { IsApart ctx.old.program (BlockNode block) }
        ensures erased { ErasesBlock ctx.old.program ctx.new.program block }
        ensures point { LeavesPoint ctx.old.program (BlockNode block) self.old.point self.new.point }
        ensures types { ctx.new.types ≡ ctx.old.types }
    {
        self.leave(ctx, IRNode::BasicBlock(block));
        block.erase(ctx);
    }

    /// Unsets the point where its block or operation has been erased.
    pub fn leave_erased<O, B, T: TypeTable>(&mut self, ctx: &TypedProgram<O, B, T>)
        ensures point { LeavesErased ctx.now.program self.old.point self.new.point }
    {
        if is_erased(ctx, self.point) {
            self.point = OpInsertionPoint::Unset;
        }
    }
}
