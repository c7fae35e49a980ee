//! The items of a module in the order in which their marks stand in its text.
use ir_context::{Context, OperationCalls};
use ir_program::{Operation, Ptr};
use ir_walks::{
    Direction, IRNode, Level, Order, WalkConfig, WalkResult, interruptible, walk_advance,
    walk_break,
};
use kit::Kit;
use std::alloc::{AllocError, Global};
use std::ops::ControlFlow;

/// Blocks come before what is in them, operations behind it.
const ENDS: WalkConfig = WalkConfig {
    operation: Level {
        order: Order::PostOrder,
        direction: Direction::Forward,
    },
    region: Level {
        order: Order::PreOrder,
        direction: Direction::Forward,
    },
    block: Level {
        order: Order::PreOrder,
        direction: Direction::Forward,
    },
};

/// Takes note of a node.
fn note(nodes: &mut Vec<IRNode>, node: IRNode) -> WalkResult<AllocError> {
    if let IRNode::Region(_) = node {
        return walk_advance();
    }
    match nodes.push(node) {
        Ok(()) => walk_advance(),
        Err(_) => walk_break(AllocError),
    }
}

/// The blocks and operations of a module: a block before what is in it, an operation behind that.
pub(crate) fn ends_of(
    alloc: Global,
    ctx: &Context<Kit>,
    root: Ptr<Operation>,
) -> Result<Vec<IRNode>, AllocError> {
    let mut nodes = Vec::new(alloc);
    if root.is_live(ctx) {
        let visit = |_ctx: &Context<Kit>, nodes: &mut Vec<IRNode>, node: IRNode| note(nodes, node);
        let walked = interruptible::immutable::walk_op(ctx, &mut nodes, &ENDS, root, visit);
        if let ControlFlow::Break(fault) = walked {
            return Err(fault);
        }
    }
    Ok(nodes)
}
