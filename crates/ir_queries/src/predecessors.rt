//! The blocks from which edges lead to a block.
ghost use Rattle.std.specs.Prelude.{◌≡◌, ◌↔◌, ◌<◌, List, Some, IsSome, IsTrue, IfOk, IfSome, length, slice_get};
ghost use Rattle.ir_program.specs.declared.handles.Ptr.{Ptr};
ghost use Rattle.ir_program.specs.declared.handles.BasicBlock.{BasicBlock};
ghost use Rattle.ir_program.specs.Program.{operation_at, block_at};
ghost use Rattle.ir_program.specs.Lists.{IsLinkedOperation, StandsInBlock};
ghost use Rattle.ir_program.specs.Order.{edges_listed};
ghost use Rattle.ir_program.specs.Uses.{IsBlockUse};
ghost use Rattle.ir_queries.specs.Predecessors.{IsPredecessor, HasLinkedUsers, ArePredecessors, ListsPredecessors};

use ir_program::{BasicBlock, Operation, Program, Ptr, Use};
use std::alloc::{AllocError, Global};

/// The block that an operation stands in, which stands in one.
fn block_of<O, B>(program: &Program<O, B>, op: Ptr<Operation>) -> Ptr<BasicBlock>
    requires live { IsSome (operation_at program.now op) }
    requires linked { IsLinkedOperation program.now op }
    ensures stands { StandsInBlock program.now op result }
    ensures only { (block : Ptr BasicBlock) → StandsInBlock program.now op block → block ≡ result }
{
    match program.parent_block(op) {
        Some(block) => block,
        None => unreachable!(),
    }
}

/// The blocks from which edges lead to a block, one for each edge, in the order in which the program lists these.
pub(crate) fn predecessors_of<O, B>(
    program: &Program<O, B>,
    alloc: Global,
    block: Ptr<BasicBlock>,
) -> Result<Vec<Ptr<BasicBlock>>, AllocError>
    requires block { IsSome (block_at program.now block) }
    requires linked { HasLinkedUsers program.now block }
    ensures predecessors { IfOk result (λ r. ArePredecessors program.now block r.items) }
    ensures order { IfOk result (λ r. ListsPredecessors program.now block r.items) }
{
    let mut predecessors = Vec::new(alloc);
    for edge in program.block_uses(block) {
        predecessors.push(block_of(program, edge.user_op))?;
    }
    Ok(predecessors)
}

/// The edge at an index of those that the program lists of a block.
fn edge_at<O, B>(program: &Program<O, B>, block: Ptr<BasicBlock>, i: usize) -> Use<Ptr<BasicBlock>>
    requires block { IsSome (block_at program.now block) }
    requires within { i < length (edges_listed program.now block) }
    ensures exact { slice_get (edges_listed program.now block) i ≡ Some result }
    ensures stands { IsBlockUse program.now result }
    ensures leads { result.def ≡ block }
{
    match program.block_uses(block).nth(i) {
        Some(edge) => edge,
        None => unreachable!(),
    }
}

/// The block at an index of those that `predecessors_of` lists.
pub(crate) fn predecessor_at<O, B>(
    program: &Program<O, B>,
    block: Ptr<BasicBlock>,
    i: usize,
) -> Ptr<BasicBlock>
    requires block { IsSome (block_at program.now block) }
    requires linked { HasLinkedUsers program.now block }
    requires within { i < length (edges_listed program.now block) }
    ensures exact { (listed : List (Ptr BasicBlock)) → ListsPredecessors program.now block listed
        → slice_get listed i ≡ Some result }
    ensures edge { IfSome (slice_get (edges_listed program.now block) i)
        (λ u. StandsInBlock program.now u.user_op result) }
    ensures predecessor { IsPredecessor program.now block result }
{
    block_of(program, edge_at(program, block, i).user_op)
}

/// Whether an edge to a block leads from an operation of the block `from`.
pub(crate) fn is_predecessor<O, B>(
    program: &Program<O, B>,
    block: Ptr<BasicBlock>,
    from: Ptr<BasicBlock>,
) -> bool
    requires { IsSome (block_at program.now block) }
    ensures { IsTrue result ↔ IsPredecessor program.now block from }
{
    for edge in program.block_uses(block) {
        if program.parent_block(edge.user_op) == Some(from) {
            return true;
        }
    }
    false
}
