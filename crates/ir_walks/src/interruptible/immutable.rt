//! Walks that a callback can end, or send past what stands in a node. The callback only reads.
ghost use Rattle.std.specs.Prelude.{IsSome};
ghost use Rattle.ir_program.specs.Program.{operation_at, block_at, region_at};
ghost use Rattle.ir_program.specs.declared.handles.IRNode.TheVariants.{Operation as OperationNode};
ghost use Rattle.ir_program.specs.declared.handles.IRNode.TheVariants.{Region as RegionNode, BasicBlock as BlockNode};
ghost use Rattle.ir_walks.specs.Calls.{EndsWalk};

use crate::config::WalkConfig;
use crate::context::HasProgram;
use crate::results::WalkResult;
use crate::walking::walk_node;
use ir_program::{BasicBlock, IRNode, Operation, Ptr, Region};

/// Walks over an operation and all that stands in it, and calls the callback at each node in the order of `config`. The
/// callback answers how to go on; its first `Break` ends the walk, and is what the walk answers.
pub fn walk_op<
    O,
    B,
    C: HasProgram<O, B>,
    S,
    K: Drop,
    F: FnMut(&C, &mut S, IRNode) -> WalkResult<K>,
>(ctx: &C, state: &mut S, config: &WalkConfig, root: Ptr<Operation>, callback: F) -> WalkResult<K>
    requires live { IsSome (operation_at (C.program_of ctx.now) root) }
    requires callable { (f : F) (c : _) (s : _) (n : _) → F.pre f c s n }
    ensures { EndsWalk (C.program_of ctx.now) config.now (OperationNode root) F.FnMut ctx.now callback state.old
        result state.new }
{
    walk_node(
        ctx.walked_program(),
        ctx,
        state,
        config,
        IRNode::Operation(root),
        callback,
    )
}

/// Walks over a region and all that stands in it, and calls the callback at each node in the order of `config`. The
/// callback answers how to go on; its first `Break` ends the walk, and is what the walk answers.
pub fn walk_region<
    O,
    B,
    C: HasProgram<O, B>,
    S,
    K: Drop,
    F: FnMut(&C, &mut S, IRNode) -> WalkResult<K>,
>(ctx: &C, state: &mut S, config: &WalkConfig, root: Ptr<Region>, callback: F) -> WalkResult<K>
    requires live { IsSome (region_at (C.program_of ctx.now) root) }
    requires callable { (f : F) (c : _) (s : _) (n : _) → F.pre f c s n }
    ensures { EndsWalk (C.program_of ctx.now) config.now (RegionNode root) F.FnMut ctx.now callback state.old
        result state.new }
{
    walk_node(
        ctx.walked_program(),
        ctx,
        state,
        config,
        IRNode::Region(root),
        callback,
    )
}

/// Walks over a block and all that stands in it, and calls the callback at each node in the order of `config`. The
/// callback answers how to go on; its first `Break` ends the walk, and is what the walk answers.
pub fn walk_block<
    O,
    B,
    C: HasProgram<O, B>,
    S,
    K: Drop,
    F: FnMut(&C, &mut S, IRNode) -> WalkResult<K>,
>(ctx: &C, state: &mut S, config: &WalkConfig, root: Ptr<BasicBlock>, callback: F) -> WalkResult<K>
    requires live { IsSome (block_at (C.program_of ctx.now) root) }
    requires callable { (f : F) (c : _) (s : _) (n : _) → F.pre f c s n }
    ensures { EndsWalk (C.program_of ctx.now) config.now (BlockNode root) F.FnMut ctx.now callback state.old
        result state.new }
{
    walk_node(
        ctx.walked_program(),
        ctx,
        state,
        config,
        IRNode::BasicBlock(root),
        callback,
    )
}
