//! The block around an operation or a block that stands in a region.
ghost use Rattle.std.specs.Prelude.{IsSome, IfSome};
ghost use Rattle.ir_queries.specs.Ancestors.{AnswersNearest};
ghost use Rattle.ir_program.specs.Lists.{StandsInRegion, IsLiveNode};
ghost use Rattle.ir_program.specs.Program.{operation_at, block_at};
ghost use Rattle.ir_program.specs.declared.handles.IRNode.TheVariants.{Operation as OperationNode, BasicBlock as BlockNode};

use ir_context::{TypeTable, TypedProgram};
use ir_program::{BasicBlock, IRNode, Operation, Program, Ptr, Region};

/// The first of the blocks around an entity, from the inside out, that stands in a region.
fn block_in_region<O, B>(
    program: &Program<O, B>,
    inner: IRNode,
    region: Ptr<Region>,
) -> Option<Ptr<BasicBlock>>
    requires { IsLiveNode program.now inner }
    ensures nearest { AnswersNearest BlockNode program.now inner
        (λ x. StandsInRegion program.now x region) result }
    ensures live { IfSome result (λ x. IsSome (block_at program.now x)) }
{
    for node in program.nodes_around(inner) {
        if let IRNode::BasicBlock(block) = node {
            if program.parent_region(block) == Some(region) {
                return Some(block);
            }
        }
    }
    None
}

/// The first of a block and the blocks around it, from the inside out, that stands in a region; `None` where none
/// does.
pub fn find_ancestor_block_of_block_in_region<O, B, T: TypeTable>(
    ctx: &TypedProgram<O, B, T>,
    block: Ptr<BasicBlock>,
    region: Ptr<Region>,
) -> Option<Ptr<BasicBlock>>
    requires { IsSome (block_at ctx.now.program block) }
    ensures nearest { AnswersNearest BlockNode ctx.now.program (BlockNode block)
        (λ x. StandsInRegion ctx.now.program x region) result }
    ensures live { IfSome result (λ x. IsSome (block_at ctx.now.program x)) }
{
    block_in_region(ctx.program(), IRNode::BasicBlock(block), region)
}

/// The first of the blocks around an operation, from the inside out, that stands in a region; `None` where none does, as
/// where the operation stands in no block.
pub fn find_ancestor_block_of_op_in_region<O, B, T: TypeTable>(
    ctx: &TypedProgram<O, B, T>,
    op: Ptr<Operation>,
    region: Ptr<Region>,
) -> Option<Ptr<BasicBlock>>
    requires { IsSome (operation_at ctx.now.program op) }
    ensures nearest { AnswersNearest BlockNode ctx.now.program (OperationNode op)
        (λ x. StandsInRegion ctx.now.program x region) result }
    ensures live { IfSome result (λ x. IsSome (block_at ctx.now.program x)) }
{
    block_in_region(ctx.program(), IRNode::Operation(op), region)
}
