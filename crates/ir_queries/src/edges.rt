//! The blocks that a block may go on to, and those that may go on to it.
ghost use Rattle.std.specs.Prelude.{◌≡◌, ◌↔◌, ◌<◌, List, IsSome, IsTrue, IfOk, IfSome, Some, Contains, length, slice_get};
ghost use Rattle.ir_program.specs.declared.handles.Ptr.{Ptr};
ghost use Rattle.ir_program.specs.declared.handles.BasicBlock.{BasicBlock};
ghost use Rattle.ir_program.specs.Program.{block_at, arguments_at};
ghost use Rattle.ir_program.specs.Lists.{StandsInBlock};
ghost use Rattle.ir_program.specs.Order.{edges_listed};
ghost use Rattle.ir_program.specs.Uses.{AreBlockUses};
ghost use Rattle.ir_queries.specs.Rows.{values_of};
ghost use Rattle.ir_queries.specs.Edges.{terminator_of, edges_of};
ghost use Rattle.ir_queries.specs.Predecessors.{IsPredecessor, HasLinkedUsers, ArePredecessors, ListsPredecessors};

use crate::predecessors::{is_predecessor, predecessor_at, predecessors_of};
use crate::rows::{arguments_of, has_successor, successors_of};
use crate::uses::uses_of_block;
use ir_context::{Context, OperationCalls, TypeTable, TypedProgram};
use ir_names::OpInterface;
use ir_program::{BasicBlock, Operation, Ptr, Use, Value};
use ir_types::DialectTables;
use std::alloc::{AllocError, Global};

/// The edges from a block and to it. The edges from a block are the successors of its terminator.
pub trait BlockEdges {
    /// The handle of the block.
    ghost block: { Self → Ptr BasicBlock };

    /// Its arguments, in order.
    fn arguments<O, B, T: TypeTable>(
        self,
        alloc: Global,
        ctx: &TypedProgram<O, B, T>,
    ) -> Result<Vec<Value>, AllocError>
        requires { IsSome (block_at ctx.now.program (block self)) }
        ensures { IfOk result (λ r. r.items ≡ values_of (arguments_at ctx.now.program (block self))) };

    /// Its last operation, if that is of a kind that ends blocks.
    fn get_terminator<D: DialectTables>(self, ctx: &Context<D>) -> Option<Ptr<Operation>>
        requires { IsSome (block_at ctx.now.program (block self)) }
        ensures terminator { result ≡ terminator_of D.op_has ctx.now.program (block self) }
        ensures stands { IfSome result (λ op. StandsInBlock ctx.now.program op (block self)) };

    /// The blocks that it may go on to, in order: the successors of its terminator, none without one.
    fn succs<D: DialectTables>(
        self,
        alloc: Global,
        ctx: &Context<D>,
    ) -> Result<Vec<Ptr<BasicBlock>>, AllocError>
        requires { IsSome (block_at ctx.now.program (block self)) }
        ensures { IfOk result (λ r. r.items ≡ edges_of D.op_has ctx.now.program (block self)) };

    /// How many edges lead from it. A block to which two lead counts twice.
    fn num_succ<D: DialectTables>(self, ctx: &Context<D>) -> usize
        requires { IsSome (block_at ctx.now.program (block self)) }
        ensures { result ≡ length (edges_of D.op_has ctx.now.program (block self)) };

    /// Whether an edge leads from it.
    fn has_succ<D: DialectTables>(self, ctx: &Context<D>) -> bool
        requires { IsSome (block_at ctx.now.program (block self)) }
        ensures { IsTrue result ↔ (0 < length (edges_of D.op_has ctx.now.program (block self))) };

    /// The block to which its edge at an index leads.
    fn get_succ<D: DialectTables>(self, ctx: &Context<D>, i: usize) -> Ptr<BasicBlock>
        requires block { IsSome (block_at ctx.now.program (block self)) }
        requires within { i < length (edges_of D.op_has ctx.now.program (block self)) }
        ensures exact { slice_get (edges_of D.op_has ctx.now.program (block self)) i ≡ Some result }
        ensures live { IsSome (block_at ctx.now.program result) };

    /// Whether an edge leads from it to `other`.
    fn is_succ<D: DialectTables>(self, ctx: &Context<D>, other: Ptr<BasicBlock>) -> bool
        requires { IsSome (block_at ctx.now.program (block self)) }
        ensures { IsTrue result ↔ Contains (edges_of D.op_has ctx.now.program (block self)) other };

    /// Whether an edge leads from `other` to it.
    fn is_succ_of<D: DialectTables>(self, ctx: &Context<D>, other: Ptr<BasicBlock>) -> bool
        requires { IsSome (block_at ctx.now.program other) }
        ensures { IsTrue result ↔ Contains (edges_of D.op_has ctx.now.program other) (block self) };

    /// The successors that are the block, each once, in an order that stays while the program does.
    fn uses<O, B, T: TypeTable>(
        self,
        alloc: Global,
        ctx: &TypedProgram<O, B, T>,
    ) -> Result<Vec<Use<Ptr<BasicBlock>>>, AllocError>
        requires { IsSome (block_at ctx.now.program (block self)) }
        ensures uses { IfOk result (λ r. AreBlockUses ctx.now.program (block self) r.items) }
        ensures order { IfOk result (λ r. r.items ≡ edges_listed ctx.now.program (block self)) };

    /// The blocks of the operations that have it as a successor, one for each time that they have it, in the order in
    /// which `uses` lists these times. Each of these operations stands in a block.
    fn preds<O, B, T: TypeTable>(
        self,
        alloc: Global,
        ctx: &TypedProgram<O, B, T>,
    ) -> Result<Vec<Ptr<BasicBlock>>, AllocError>
        requires block { IsSome (block_at ctx.now.program (block self)) }
        requires linked { HasLinkedUsers ctx.now.program (block self) }
        ensures predecessors { IfOk result (λ r. ArePredecessors ctx.now.program (block self) r.items) }
        ensures order { IfOk result (λ r. ListsPredecessors ctx.now.program (block self) r.items) };

    /// The block at an index, below `num_preds`, of those that `preds` lists. It asks for no memory.
    fn get_pred<O, B, T: TypeTable>(self, ctx: &TypedProgram<O, B, T>, i: usize) -> Ptr<BasicBlock>
        requires block { IsSome (block_at ctx.now.program (block self)) }
        requires linked { HasLinkedUsers ctx.now.program (block self) }
        requires within { i < length (edges_listed ctx.now.program (block self)) }
        ensures exact { (listed : List (Ptr BasicBlock)) → ListsPredecessors ctx.now.program (block self) listed
            → slice_get listed i ≡ Some result }
        ensures edge { IfSome (slice_get (edges_listed ctx.now.program (block self)) i)
            (λ u. StandsInBlock ctx.now.program u.user_op result) }
        ensures predecessor { IsPredecessor ctx.now.program (block self) result };

    /// Whether an operation of `other` has it as a successor.
    fn is_pred<O, B, T: TypeTable>(
        self,
        ctx: &TypedProgram<O, B, T>,
        other: Ptr<BasicBlock>,
    ) -> bool
        requires { IsSome (block_at ctx.now.program (block self)) }
        ensures { IsTrue result ↔ IsPredecessor ctx.now.program (block self) other };
}

impl BlockEdges for Ptr<BasicBlock> {
    ghost block = { λ b. b };

    fn arguments<O, B, T: TypeTable>(
        self,
        alloc: Global,
        ctx: &TypedProgram<O, B, T>,
    ) -> Result<Vec<Value>, AllocError> {
        arguments_of(ctx.program(), alloc, self)
    }

    fn get_terminator<D: DialectTables>(self, ctx: &Context<D>) -> Option<Ptr<Operation>> {
        let last = ctx.program().last_operation(self)?;
        if !D::op_implements(last.kind(ctx), OpInterface::IsTerminator) {
            return None;
        }
        Some(last)
    }

    fn succs<D: DialectTables>(
        self,
        alloc: Global,
        ctx: &Context<D>,
    ) -> Result<Vec<Ptr<BasicBlock>>, AllocError> {
        match self.get_terminator(ctx) {
            None => Ok(Vec::new(alloc)),
            Some(op) => successors_of(ctx.program(), alloc, op),
        }
    }

    fn num_succ<D: DialectTables>(self, ctx: &Context<D>) -> usize {
        match self.get_terminator(ctx) {
            None => 0,
            Some(op) => ctx.program().successor_count(op),
        }
    }

    fn has_succ<D: DialectTables>(self, ctx: &Context<D>) -> bool {
        self.num_succ(ctx) != 0
    }

    fn get_succ<D: DialectTables>(self, ctx: &Context<D>, i: usize) -> Ptr<BasicBlock> {
        match self.get_terminator(ctx) {
            None => unreachable!(),
            Some(op) => ctx.program().successor(op, i),
        }
    }

    fn is_succ<D: DialectTables>(self, ctx: &Context<D>, other: Ptr<BasicBlock>) -> bool {
        match self.get_terminator(ctx) {
            None => false,
            Some(op) => has_successor(ctx.program(), op, other),
        }
    }

    fn is_succ_of<D: DialectTables>(self, ctx: &Context<D>, other: Ptr<BasicBlock>) -> bool {
        other.is_succ(ctx, self)
    }

    fn uses<O, B, T: TypeTable>(
        self,
        alloc: Global,
        ctx: &TypedProgram<O, B, T>,
    ) -> Result<Vec<Use<Ptr<BasicBlock>>>, AllocError> {
        uses_of_block(ctx.program(), alloc, self)
    }

    fn preds<O, B, T: TypeTable>(
        self,
        alloc: Global,
        ctx: &TypedProgram<O, B, T>,
    ) -> Result<Vec<Ptr<BasicBlock>>, AllocError> {
        predecessors_of(ctx.program(), alloc, self)
    }

    fn get_pred<O, B, T: TypeTable>(
        self,
        ctx: &TypedProgram<O, B, T>,
        i: usize,
    ) -> Ptr<BasicBlock> {
        predecessor_at(ctx.program(), self, i)
    }

    fn is_pred<O, B, T: TypeTable>(
        self,
        ctx: &TypedProgram<O, B, T>,
        other: Ptr<BasicBlock>,
    ) -> bool {
        is_predecessor(ctx.program(), self, other)
    }
}
