//! Whether the edges under a place forward as many operands as the blocks that they lead to have arguments.
ghost use Rattle.std.specs.Prelude.{◌<◌, ◌↔◌, ◌⊎◌, IfOk, IsSome, IsTrue, length};
ghost use Rattle.ir_program.specs.Lists.{IsLiveNode};
ghost use Rattle.ir_program.specs.Program.{operation_at};
ghost use Rattle.ir_program.specs.Rows.{successors_at};
ghost use Rattle.ir_program.specs.declared.handles.IRNode.TheVariants.{Operation as OperationNode};
ghost use Rattle.opt_inside.specs.forwarding.Fits.{FitsEdge, FitsEdges, FitsEdgesAt};
ghost use Rattle.opt_inside.specs.forwarding.Tops.{IsAbove, IsStartNode};
ghost use Rattle.opt_inside.specs.reach.Edges.{FitsEdgesFrom};

use crate::forwarding::under::{is_above, start_node};
use crate::reach::Start;
use ir_program::{IRNode, Operation, Program, Ptr};
use opt_dialect::Meanings;
use std::alloc::{AllocError, Global};

/// Whether an operation forwards as many operands along an edge as the block there has arguments.
///
/// # Errors
/// There may be no memory.
fn fits_edge<D: Meanings>(
    alloc: Global,
    program: &Program<D::Operation, D::Block>,
    op: Ptr<Operation>,
    edge: usize,
) -> Result<bool, AllocError>
    requires live { IsSome (operation_at program.now op) }
    requires within { edge < length (successors_at program.now op) }
    ensures { IfOk result (λ fits. IsTrue fits ↔ FitsEdge D.meaning program.now op edge) }
{
    let count = program.operand_count(op);
    let forwarded = D::successor_operands(alloc, program.payload(op), count, edge)?;
    Ok(forwarded.len() == program.argument_count(program.successor(op, edge)))
}

/// Whether each edge of an operation fits.
///
/// # Errors
/// There may be no memory.
fn fits_edges<D: Meanings>(
    alloc: Global,
    program: &Program<D::Operation, D::Block>,
    op: Ptr<Operation>,
) -> Result<bool, AllocError>
    requires { IsSome (operation_at program.now op) }
    ensures { IfOk result (λ fits. IsTrue fits ↔ FitsEdges D.meaning program.now op) }
{
    for edge in 0..program.successor_count(op) {
        if !fits_edge::<D>(alloc, program, op, edge)? {
            return Ok(false);
        }
    }
    Ok(true)
}

/// Whether each edge of an operation fits, if it is a branch.
///
/// # Errors
/// There may be no memory.
fn fits_if_branch<D: Meanings>(
    alloc: Global,
    program: &Program<D::Operation, D::Block>,
    op: Ptr<Operation>,
) -> Result<bool, AllocError>
    requires { IsSome (operation_at program.now op) }
    ensures { IfOk result (λ fits. IsTrue fits ↔ FitsEdgesAt D.meaning program.now (OperationNode op)) }
{
    if !D::is_branch(program.payload(op)) {
        return Ok(true);
    }
    fits_edges::<D>(alloc, program, op)
}

/// Whether each edge fits that comes from an operation, if it is a branch. Blocks and regions have none.
///
/// # Errors
/// There may be no memory.
fn fits_edges_at<D: Meanings>(
    alloc: Global,
    program: &Program<D::Operation, D::Block>,
    node: IRNode,
) -> Result<bool, AllocError>
    requires { IsLiveNode program.now node }
    ensures { IfOk result (λ fits. IsTrue fits ↔ FitsEdgesAt D.meaning program.now node) }
{
    match node {
        IRNode::Operation(op) => fits_if_branch::<D>(alloc, program, op),
        IRNode::BasicBlock(_) | IRNode::Region(_) => Ok(true),
    }
}

/// Whether each edge fits that comes from an operation, if it is a branch under the place.
///
/// # Errors
/// There may be no memory.
fn fits_edges_if_under<D: Meanings>(
    alloc: Global,
    program: &Program<D::Operation, D::Block>,
    start: Start,
    node: IRNode,
) -> Result<bool, AllocError>
    requires { IsLiveNode program.now node }
    ensures { IfOk result (λ fits. IsTrue fits ↔ (IsAbove program.now start node
        ⊎ FitsEdgesAt D.meaning program.now node)) }
{
    if is_above(program, start, node) {
        return Ok(true);
    }
    fits_edges_at::<D>(alloc, program, node)
}

/// Whether each edge of a branch fits that is under a place that is there.
///
/// # Errors
/// There may be no memory.
fn fits_edges_inside<D: Meanings>(
    alloc: Global,
    program: &Program<D::Operation, D::Block>,
    start: Start,
    node: IRNode,
) -> Result<bool, AllocError>
    requires { IsStartNode program.now start node }
    ensures { IfOk result (λ fits. IsTrue fits ↔ FitsEdgesFrom D.meaning program.now start) }
{
    program.know_lists();
    for inner in program.nodes_inside(node) {
        if !fits_edges_if_under::<D>(alloc, program, start, inner)? {
            return Ok(false);
        }
    }
    Ok(true)
}

/// Whether each edge of a branch under the place where looking begins forwards as many operands as the block that it leads
/// to has arguments. The time is linear in what is inside, and in the operands that are forwarded.
///
/// # Errors
/// There may be no memory.
pub fn fits_edges_from<D: Meanings>(
    alloc: Global,
    program: &Program<D::Operation, D::Block>,
    start: Start,
) -> Result<bool, AllocError>
    ensures { IfOk result (λ fits. IsTrue fits ↔ FitsEdgesFrom D.meaning program.now start) }
{
    match start_node(program, start) {
        Some(node) => fits_edges_inside::<D>(alloc, program, start, node),
        None => Ok(true),
    }
}
