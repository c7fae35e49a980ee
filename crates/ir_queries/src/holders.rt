//! The operation around an operation that stands in a region, or in a block.
ghost use Rattle.std.specs.Prelude.{IsSome, IfSome};
ghost use Rattle.ir_queries.specs.Ancestors.{AnswersNearest};
ghost use Rattle.ir_context.specs.Holders.{HasRegion};
ghost use Rattle.ir_program.specs.Lists.{StandsInBlock};
ghost use Rattle.ir_program.specs.Program.{operation_at};
ghost use Rattle.ir_program.specs.declared.handles.IRNode.TheVariants.{Operation as OperationNode};

use crate::nearest::{OperationTest, nearest_operation};
use ir_context::{OperationCalls, TypeTable, TypedProgram};
use ir_program::{BasicBlock, Operation, Ptr, Region};

/// It stands in a block of the region.
#[derive(Clone, Copy)]
struct InRegion {
    region: Ptr<Region>,
}

impl<O, B, T: TypeTable> OperationTest<O, B, T> for InRegion {
    ghost holds = { λ test c x. HasRegion c x test.region };

    fn is_met(&self, ctx: &TypedProgram<O, B, T>, op: Ptr<Operation>) -> bool {
        op.get_parent_region(ctx) == Some(self.region)
    }
}

/// It stands in the block.
#[derive(Clone, Copy)]
struct InBlock {
    block: Ptr<BasicBlock>,
}

impl<O, B, T: TypeTable> OperationTest<O, B, T> for InBlock {
    ghost holds = { λ test c x. StandsInBlock c x test.block };

    fn is_met(&self, ctx: &TypedProgram<O, B, T>, op: Ptr<Operation>) -> bool {
        op.get_parent_block(ctx) == Some(self.block)
    }
}

/// The first of an operation and the operations that hold it, from the inside out, that stands in a block of a region;
/// `None` where none does.
pub fn find_ancestor_op_of_op_in_region<O, B, T: TypeTable>(
    ctx: &TypedProgram<O, B, T>,
    op: Ptr<Operation>,
    region: Ptr<Region>,
) -> Option<Ptr<Operation>>
    requires { IsSome (operation_at ctx.now.program op) }
    ensures nearest { AnswersNearest OperationNode ctx.now.program (OperationNode op)
        (λ x. HasRegion ctx.now.program x region) result }
    ensures live { IfSome result (λ x. IsSome (operation_at ctx.now.program x)) }
{
    nearest_operation(ctx, op, &InRegion { region })
}

/// The first of an operation and the operations that hold it, from the inside out, that stands in a block; `None` where
/// none does.
pub fn find_ancestor_op_of_op_in_block<O, B, T: TypeTable>(
    ctx: &TypedProgram<O, B, T>,
    op: Ptr<Operation>,
    block: Ptr<BasicBlock>,
) -> Option<Ptr<Operation>>
    requires { IsSome (operation_at ctx.now.program op) }
    ensures nearest { AnswersNearest OperationNode ctx.now.program (OperationNode op)
        (λ x. StandsInBlock ctx.now.program x block) result }
    ensures live { IfSome result (λ x. IsSome (operation_at ctx.now.program x)) }
{
    nearest_operation(ctx, op, &InBlock { block })
}
