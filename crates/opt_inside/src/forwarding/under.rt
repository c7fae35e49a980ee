//! Whether the edges under a place stay in their regions.
ghost use Rattle.std.specs.Prelude.{◌≡◌, ◌⊎◌, ◌↔◌, None, IfSome, IsSome, IsTrue};
ghost use Rattle.ir_program.specs.Lists.{IsLiveNode, StandsInBlock};
ghost use Rattle.ir_program.specs.Program.{operation_at};
ghost use Rattle.ir_program.specs.declared.handles.IRNode.{IRNode};
ghost use Rattle.opt_inside.specs.forwarding.Local.{HasLocalEdgesAt};
ghost use Rattle.opt_inside.specs.forwarding.Tops.{IsAbove, IsStartNode};
ghost use Rattle.opt_inside.specs.reach.Edges.{HasLocalEdgesFrom, IsNodeUnder};

use crate::forwarding::local::has_local_edges_at;
use crate::reach::Start;
use ir_program::{BasicBlock, IRNode, Operation, Program, Ptr};
use opt_dialect::Meanings;

/// The operation, the block or the region where looking begins, if it is there.
pub(crate) fn start_node<O, B>(program: &Program<O, B>, start: Start) -> Option<IRNode>
    ensures there { IfSome result (λ node. IsStartNode program.now start node) }
    ensures nowhere { result ≡ None → (e : IRNode) → IsNodeUnder program.now start e → ⊥ }
{
    match start {
        Start::Operation(op) if program.has_operation(op) => Some(IRNode::Operation(op)),
        Start::Block(block) if program.has_block(block) => Some(IRNode::BasicBlock(block)),
        Start::Region(region) if program.has_region(region) => {
            // Each region stands in an operation.
            let _owner = program.parent_operation(region);
            Some(IRNode::Region(region))
        },
        _ => None,
    }
}

/// Whether an operation stands in a block.
fn is_in_block<O, B>(program: &Program<O, B>, op: Ptr<Operation>, block: Ptr<BasicBlock>) -> bool
    requires { IsSome (operation_at program.now op) }
    ensures { IsTrue result ↔ StandsInBlock program.now op block }
{
    match program.parent_block(op) {
        Some(parent) => parent == block,
        None => false,
    }
}

/// Whether something holds regions where looking begins, and isn't in one.
pub(crate) fn is_above<O, B>(program: &Program<O, B>, start: Start, node: IRNode) -> bool
    requires { IsLiveNode program.now node }
    ensures { IsTrue result ↔ IsAbove program.now start node }
{
    match (start, node) {
        (Start::Operation(op), IRNode::Operation(inner)) => inner == op,
        (Start::Block(block), IRNode::Operation(inner)) => is_in_block(program, inner, block),
        (Start::Block(block), IRNode::BasicBlock(inner)) => inner == block,
        _ => false,
    }
}

/// Whether the edges at an operation or a block stay in its region, where it is under the place.
fn has_local_edges_if_under<D: Meanings>(
    program: &Program<D::Operation, D::Block>,
    start: Start,
    node: IRNode,
) -> bool
    requires { IsLiveNode program.now node }
    ensures { IsTrue result ↔ (IsAbove program.now start node
        ⊎ HasLocalEdgesAt D.meaning.is_terminator program.now node) }
{
    is_above(program, start, node) || has_local_edges_at::<D>(program, node)
}

/// Whether the edges under a place that is there stay in their regions.
fn has_local_edges_inside<D: Meanings>(
    program: &Program<D::Operation, D::Block>,
    start: Start,
    node: IRNode,
) -> bool
    requires { IsStartNode program.now start node }
    ensures { IsTrue result ↔ HasLocalEdgesFrom D.meaning.is_terminator program.now start }
{
    program.know_lists();
    for inner in program.nodes_inside(node) {
        if !has_local_edges_if_under::<D>(program, start, inner) {
            return false;
        }
    }
    true
}

/// Whether under the place where looking begins only the terminator at a block's end has successors, these are blocks of its
/// region, and nothing outside has a block there as a successor. The time is linear in what is inside and in the edges
/// there. It asks for no memory.
pub fn has_local_edges_from<D: Meanings>(
    program: &Program<D::Operation, D::Block>,
    start: Start,
) -> bool
    ensures { IsTrue result ↔ HasLocalEdgesFrom D.meaning.is_terminator program.now start }
{
    match start_node(program, start) {
        Some(node) => has_local_edges_inside::<D>(program, start, node),
        None => true,
    }
}
