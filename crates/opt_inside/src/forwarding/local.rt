//! Whether the edges below an operation stay in their regions.
ghost use Rattle.std.specs.Prelude.{◌↔◌, IsSome, IsTrue};
ghost use Rattle.ir_program.specs.Lists.{IsLiveNode};
ghost use Rattle.ir_program.specs.Program.{block_at, operation_at};
ghost use Rattle.ir_program.specs.declared.handles.IRNode.TheVariants.{Operation as OperationNode, BasicBlock as BlockNode};
ghost use Rattle.ir_program.specs.Rows.{successors_at};
ghost use Rattle.ir_program.specs.declared.handles.BasicBlock.{BasicBlock};
ghost use Rattle.ir_program.specs.declared.handles.Operation.{Operation};
ghost use Rattle.ir_program.specs.declared.handles.Ptr.{Ptr};
ghost use Rattle.ir_trees.specs.Searched.{Lists};
ghost use Rattle.opt_inside.specs.Edges.{HasLocalEdgesBelow};
ghost use Rattle.opt_inside.specs.Occurring.{IsBelowRoot, IsBlockBelow};
ghost use Rattle.opt_inside.specs.forwarding.Local.{AreSiblings, HasLocalEdgesAt, IsLocalEdge};

use crate::forwarding::under::has_local_edges_from;
use crate::reach::{Start, know_edges_under};
use ir_program::{BasicBlock, IRNode, Operation, Program, Ptr};
use opt_dialect::Meanings;

/// Whether two blocks are in one region.
fn are_siblings<O, B>(
    program: &Program<O, B>,
    first: Ptr<BasicBlock>,
    second: Ptr<BasicBlock>,
) -> bool
    requires first { IsSome (block_at program.now first) }
    requires second { IsSome (block_at program.now second) }
    ensures { IsTrue result ↔ AreSiblings program.now first second }
{
    match (program.parent_region(first), program.parent_region(second)) {
        (Some(one), Some(other)) => one == other,
        _ => false,
    }
}

/// Whether an edge from an operation to a block would stay in its region.
fn is_local_edge<D: Meanings>(
    program: &Program<D::Operation, D::Block>,
    op: Ptr<Operation>,
    target: Ptr<BasicBlock>,
) -> bool
    requires operation { IsSome (operation_at program.now op) }
    requires block { IsSome (block_at program.now target) }
    ensures { IsTrue result ↔ IsLocalEdge D.meaning.is_terminator program.now op target }
{
    program.know_lists();
    let Some(block) = program.parent_block(op) else {
        return false;
    };
    program.next_operation(op).is_none()
        && D::is_terminator(program.payload(op))
        && are_siblings(program, block, target)
}

/// Whether the edges from an operation stay in its region.
fn leads_locally<D: Meanings>(program: &Program<D::Operation, D::Block>, op: Ptr<Operation>) -> bool
    requires { IsSome (operation_at program.now op) }
    ensures { IsTrue result ↔ HasLocalEdgesAt D.meaning.is_terminator program.now (OperationNode op) }
{
    for index in 0..program.successor_count(op) {
        if !is_local_edge::<D>(program, op, program.successor(op, index)) {
            return false;
        }
    }
    true
}

/// Whether the edges to a block stay in its region.
fn is_entered_locally<D: Meanings>(
    program: &Program<D::Operation, D::Block>,
    block: Ptr<BasicBlock>,
) -> bool
    requires { IsSome (block_at program.now block) }
    ensures { IsTrue result ↔ HasLocalEdgesAt D.meaning.is_terminator program.now (BlockNode block) }
{
    for edge in program.block_uses(block) {
        if !is_local_edge::<D>(program, edge.user_op, block) {
            return false;
        }
    }
    true
}

/// Whether the edges at an operation or a block stay in its region.
pub(crate) fn has_local_edges_at<D: Meanings>(
    program: &Program<D::Operation, D::Block>,
    node: IRNode,
) -> bool
    requires { IsLiveNode program.now node }
    ensures { IsTrue result ↔ HasLocalEdgesAt D.meaning.is_terminator program.now node }
{
    match node {
        IRNode::Operation(op) => leads_locally::<D>(program, op),
        IRNode::BasicBlock(block) => is_entered_locally::<D>(program, block),
        IRNode::Region(_) => true,
    }
}

/// Whether below an operation only the terminator at a block's end has successors, these are blocks of its region, and
/// nothing outside has a block there as a successor. The time is linear in what is inside and in the edges there. It asks
/// for no memory.
pub fn has_local_edges_below<D: Meanings>(
    program: &Program<D::Operation, D::Block>,
    op: Ptr<Operation>,
) -> bool
    requires { IsSome (operation_at program.now op) }
    ensures exact { IsTrue result ↔ HasLocalEdgesBelow D.meaning.is_terminator program.now op }
    // So what is below leads to blocks below.
    ensures leads { IsTrue result → (p : Ptr Operation) (s : Ptr BasicBlock) → IsBelowRoot program.now op p
        → Lists (successors_at program.now p) s → IsBlockBelow program.now op s }
{
    know_edges_under::<D>(program, op);
    has_local_edges_from::<D>(program, Start::Operation(op))
}
