//! Walks that a callback can end, or send past what stands in a node. The callback may change what it is given.
ghost use Rattle.std.specs.Prelude.{IsSome};
ghost use Rattle.ir_program.specs.Program.{operation_at, block_at, region_at};
ghost use Rattle.ir_program.specs.declared.handles.IRNode.TheVariants.{Operation as OperationNode};
ghost use Rattle.ir_program.specs.declared.handles.IRNode.TheVariants.{Region as RegionNode, BasicBlock as BlockNode};
ghost use Rattle.ir_mutable_walks.specs.Changes.{AlwaysReshapesBelow};
ghost use Rattle.ir_mutable_walks.specs.Ends.{EndsMutWalk};

use crate::limit::WalkLimit;
use crate::walking::walk_node;
use ir_program::{BasicBlock, IRNode, Operation, Ptr, Region};
use ir_walks::{HasProgram, WalkConfig, WalkResult};

/// Walks over an operation and all that stands in it, and calls the callback at each node in the order of `config`. The
/// callback may reshape what is below its node. It answers how to go on; its first `Break` ends the walk, and is what
/// the walk answers.
///
/// # Errors
/// `WalkLimit`, where `limit` calls were made, and a further one would follow. That is not made.
pub fn walk_op<
    O,
    B,
    C: HasProgram<O, B>,
    S,
    K: Drop,
    F: FnMut(&mut C, &mut S, IRNode) -> WalkResult<K>,
>(
    ctx: &mut C,
    state: &mut S,
    config: &WalkConfig,
    limit: u64,
    root: Ptr<Operation>,
    callback: F,
) -> Result<WalkResult<K>, WalkLimit>
    requires live { IsSome (operation_at (C.program_of ctx.old) root) }
    requires callable { (f : F) (c : _) (s : _) (n : _) → F.pre f c s n }
    requires below { AlwaysReshapesBelow C.program_of F.FnMut }
    ensures { EndsMutWalk C.program_of config.now (OperationNode root) limit F.FnMut callback ctx.old state.old result ctx.new
        state.new }
{
    walk_node(ctx, state, config, limit, IRNode::Operation(root), callback)
}

/// Walks over a region and all that stands in it, and calls the callback at each node in the order of `config`. The
/// callback may reshape what is below its node. It answers how to go on; its first `Break` ends the walk, and is what
/// the walk answers.
///
/// # Errors
/// `WalkLimit`, where `limit` calls were made, and a further one would follow. That is not made.
pub fn walk_region<
    O,
    B,
    C: HasProgram<O, B>,
    S,
    K: Drop,
    F: FnMut(&mut C, &mut S, IRNode) -> WalkResult<K>,
>(
    ctx: &mut C,
    state: &mut S,
    config: &WalkConfig,
    limit: u64,
    root: Ptr<Region>,
    callback: F,
) -> Result<WalkResult<K>, WalkLimit>
    requires live { IsSome (region_at (C.program_of ctx.old) root) }
    requires callable { (f : F) (c : _) (s : _) (n : _) → F.pre f c s n }
    requires below { AlwaysReshapesBelow C.program_of F.FnMut }
    ensures { EndsMutWalk C.program_of config.now (RegionNode root) limit F.FnMut callback ctx.old state.old result ctx.new
        state.new }
{
    walk_node(ctx, state, config, limit, IRNode::Region(root), callback)
}

/// Walks over a block and all that stands in it, and calls the callback at each node in the order of `config`. The
/// callback may reshape what is below its node. It answers how to go on; its first `Break` ends the walk, and is what
/// the walk answers.
///
/// # Errors
/// `WalkLimit`, where `limit` calls were made, and a further one would follow. That is not made.
pub fn walk_block<
    O,
    B,
    C: HasProgram<O, B>,
    S,
    K: Drop,
    F: FnMut(&mut C, &mut S, IRNode) -> WalkResult<K>,
>(
    ctx: &mut C,
    state: &mut S,
    config: &WalkConfig,
    limit: u64,
    root: Ptr<BasicBlock>,
    callback: F,
) -> Result<WalkResult<K>, WalkLimit>
    requires live { IsSome (block_at (C.program_of ctx.old) root) }
    requires callable { (f : F) (c : _) (s : _) (n : _) → F.pre f c s n }
    requires below { AlwaysReshapesBelow C.program_of F.FnMut }
    ensures { EndsMutWalk C.program_of config.now (BlockNode root) limit F.FnMut callback ctx.old state.old result ctx.new
        state.new }
{
    walk_node(
        ctx,
        state,
        config,
        limit,
        IRNode::BasicBlock(root),
        callback,
    )
}
