//! One turn of a walk: where it goes on. For crates that walk in a way of their own.
ghost use Rattle.std.specs.Prelude.{◌≡◌, ◌∷◌, ◌++◌, ℕ, List, Some, option_map, slice_get};
ghost use Rattle.ir_program.specs.Lists.{IsLiveNode, StandsInside};
ghost use Rattle.ir_program.specs.Preorder.{nodes_in};
ghost use Rattle.ir_program.specs.declared.handles.IRNode.{IRNode};
ghost use Rattle.ir_program.specs.declared.handles.IRNode.TheVariants.{Operation as OperationNode};
ghost use Rattle.ir_program.specs.declared.handles.IRNode.TheVariants.{Region as RegionNode, BasicBlock as BlockNode};
ghost use Rattle.ir_walks.specs.Levels.{members};
ghost use Rattle.ir_walks.specs.declared.turns.Cursor.TheVariants.{Leaving};
ghost use Rattle.ir_walks.specs.Turns.{called_at, node_of, Enters, Exits, IsTurn};

use crate::config::{Order, WalkConfig};
use crate::lists::{
    block_beside, first_block, first_operation, first_region, operation_beside, region_beside,
};
use crate::results::WalkContinue;
use ir_program::{BasicBlock, IRNode, Operation, Program, Ptr, Region};

/// Where a walk is.
#[derive(Clone, Copy, Debug, PartialEq, Eq)]
pub enum Cursor {
    /// Before a node and what stands in it.
    Arriving(IRNode),
    /// After what stands in a node, where the node itself may still be called.
    Leaving(IRNode),
}

/// The node that is called where the walk is.
pub fn called_at(config: &WalkConfig, at: Cursor) -> Option<IRNode>
    ensures { result ≡ called_at config.now at }
{
    match at {
        Cursor::Arriving(node) => match config.level(node).order {
            Order::PreOrder => Some(node),
            Order::PostOrder => None,
        },
        Cursor::Leaving(node) => match config.level(node).order {
            Order::PreOrder => None,
            Order::PostOrder => Some(node),
        },
    }
}

/// The operation as a node, if there is one.
fn operation_node(op: Option<Ptr<Operation>>) -> Option<IRNode>
    ensures { result ≡ option_map OperationNode op }
{
    Some(IRNode::Operation(op?))
}

/// The region as a node, if there is one.
fn region_node(region: Option<Ptr<Region>>) -> Option<IRNode>
    ensures { result ≡ option_map RegionNode region }
{
    Some(IRNode::Region(region?))
}

/// The block as a node, if there is one.
fn block_node(block: Option<Ptr<BasicBlock>>) -> Option<IRNode>
    ensures { result ≡ option_map BlockNode block }
{
    Some(IRNode::BasicBlock(block?))
}

/// After what stands in a node, if there is one.
fn leaving(node: Option<IRNode>) -> Option<Cursor>
    ensures { result ≡ option_map Leaving node }
{
    Some(Cursor::Leaving(node?))
}

/// The first of what stands in a node, in the direction of the node's level.
fn first_member<O, B>(program: &Program<O, B>, config: &WalkConfig, node: IRNode) -> Option<IRNode>
    requires { IsLiveNode program.now node }
    ensures { result ≡ slice_get (members program.now config.now node) 0 }
{
    match node {
        IRNode::Operation(op) => {
            region_node(first_region(program, op, config.operation.direction))
        }
        IRNode::Region(region) => {
            block_node(first_block(program, region, config.region.direction))
        }
        IRNode::BasicBlock(block) => {
            operation_node(first_operation(program, block, config.block.direction))
        }
    }
}

/// What comes right after a node in the one that it stands in, in the direction of that one's level.
fn next_beside<O, B>(program: &Program<O, B>, config: &WalkConfig, node: IRNode) -> Option<IRNode>
    requires { IsLiveNode program.now node }
    ensures { (holder : IRNode) (before after : List IRNode)
        → members program.now config.now holder ≡ before ++ node ∷ after
        → result ≡ slice_get after 0 }
{
    match node {
        IRNode::Operation(op) => {
            operation_node(operation_beside(program, op, config.block.direction))
        }
        IRNode::Region(region) => {
            region_node(region_beside(program, region, config.operation.direction))
        }
        IRNode::BasicBlock(block) => {
            block_node(block_beside(program, block, config.region.direction))
        }
    }
}

/// What a node stands in.
fn holder<O, B>(program: &Program<O, B>, node: IRNode) -> Option<IRNode>
    requires { IsLiveNode program.now node }
    ensures { (holder : IRNode) (k : ℕ) → slice_get (nodes_in program.now holder) k ≡ Some node
        → result ≡ Some holder }
{
    program.know_lists();
    match node {
        IRNode::Operation(op) => block_node(program.parent_block(op)),
        IRNode::Region(region) => Some(IRNode::Operation(program.parent_operation(region))),
        IRNode::BasicBlock(block) => region_node(program.parent_region(block)),
    }
}

/// Where a walk goes on from a node into which it goes.
fn enter<O, B>(program: &Program<O, B>, config: &WalkConfig, node: IRNode) -> Cursor
    requires { IsLiveNode program.now node }
    ensures { Enters program.now config.now node result }
{
    match first_member(program, config, node) {
        Some(first) => Cursor::Arriving(first),
        None => Cursor::Leaving(node),
    }
}

/// Where a walk of `root` goes on from a node of which all is done.
fn exit<O, B>(
    program: &Program<O, B>,
    config: &WalkConfig,
    root: IRNode,
    node: IRNode,
) -> Option<Cursor>
    requires live { IsLiveNode program.now node }
    requires inside { StandsInside program.now root node }
    ensures { Exits program.now config.now root node result }
{
    if node == root {
        return None;
    }
    match next_beside(program, config, node) {
        Some(next) => Some(Cursor::Arriving(next)),
        None => leaving(holder(program, node)),
    }
}

/// Where a walk of `root` goes on, after a call that answered so, or after no call.
pub fn go_on<O, B>(
    program: &Program<O, B>,
    config: &WalkConfig,
    root: IRNode,
    at: Cursor,
    answer: WalkContinue,
) -> Option<Cursor>
    requires live { IsLiveNode program.now (node_of at) }
    requires inside { StandsInside program.now root (node_of at) }
    ensures { IsTurn program.now config.now root at answer result }
{
    match at {
        Cursor::Arriving(node) => match answer {
            WalkContinue::Advance => Some(enter(program, config, node)),
            WalkContinue::Skip => Some(Cursor::Leaving(node)),
        },
        Cursor::Leaving(node) => exit(program, config, root, node),
    }
}
