//! Functions that walk and change: their callbacks meet what the walks ask of them.
ghost use Rattle.std.specs.Prelude.{IsSome};
ghost use Rattle.ir_program.specs.Lists.{IsLiveNode};
ghost use Rattle.ir_program.specs.Program.{operation_at, block_at};
ghost use Rattle.ir_program.specs.declared.handles.IRNode.TheVariants.{BasicBlock as BlockNode};
ghost use Rattle.ir_mutable_walks.specs.Changes.{ReshapesBelow};

use ir_mutable_walks::{WalkLimit, interruptible, uninterruptible};
use ir_program::{BasicBlock, IRNode, Operation, Program, Ptr};
use ir_walks::{
    HasProgram, WALKCONFIG_PREORDER_FORWARD, WalkConfig, WalkResult, walk_advance, walk_break,
    walk_skip,
};
use std::alloc::Global;

/// Operations and blocks with names.
pub type Named = Program<char, char>;

/// How many nodes are in an operation, itself counted, by a walk that may change them and doesn't.
///
/// # Errors
/// `WalkLimit`, where there are more than the limit.
pub fn count_nodes_mut<O, B, C: HasProgram<O, B>>(
    ctx: &mut C,
    limit: u64,
    root: Ptr<Operation>,
) -> Result<u64, WalkLimit>
    requires { IsSome (operation_at (C.program_of ctx.old) root) }
{
    let mut count = 0u64;
    uninterruptible::mutable::walk_op(
        ctx,
        &mut count,
        &WALKCONFIG_PREORDER_FORWARD,
        limit,
        root,
        |_ctx: &mut C, count: &mut u64, _node: IRNode| {
            *count = count.saturating_add(1);
        },
    )?;
    Ok(count)
}

/// Puts a new operation behind those of a block, if there is memory for it.
fn append(alloc: Global, program: &mut Named, block: Ptr<BasicBlock>, name: char)
    requires { IsSome (block_at program.old block) }
    ensures { ReshapesBelow program.old program.new (BlockNode block) }
{
    match program.new_operation(alloc, name) {
        Ok(op) => program.insert_operation_at_back(block, op),
        Err(_) => {}
    }
}

/// Takes the last operation out of a block.
fn take_last(program: &mut Named, block: Ptr<BasicBlock>)
    requires { IsSome (block_at program.old block) }
    ensures { ReshapesBelow program.old program.new (BlockNode block) }
{
    match program.last_operation(block) {
        Some(op) => program.unlink_operation(op),
        None => {}
    }
}

/// What a callback did so far, and what it is to do at a block.
#[derive(Drop)]
pub struct Log {
    /// The nodes at which it was called.
    pub nodes: Vec<IRNode>,
    /// The name of an operation that is put behind those of each block; else the last one is taken out.
    pub added: Option<char>,
    /// The node whose inside is skipped.
    pub skipped: Option<IRNode>,
    /// The node at which the walk breaks.
    pub last: Option<IRNode>,
    /// Where new operations get their memory.
    pub alloc: Global,
}

/// Puts an operation into a block, or takes one out.
fn change_block(program: &mut Named, log: &Log, block: Ptr<BasicBlock>)
    requires { IsSome (block_at program.old block) }
    ensures { ReshapesBelow program.old program.new (BlockNode block) }
{
    match log.added {
        Some(name) => append(log.alloc, program, block, name),
        None => take_last(program, block),
    }
}

/// Puts an operation into a block that is there, or takes one out.
fn change_if_there(program: &mut Named, log: &Log, block: Ptr<BasicBlock>)
    ensures { IsSome (block_at program.old block) → ReshapesBelow program.old program.new (BlockNode block) }
{
    if program.has_block(block) {
        change_block(program, log, block);
    }
}

/// Logs the node, and changes what stands in it, where it is a block.
fn change(program: &mut Named, log: &mut Log, node: IRNode)
    ensures { IsLiveNode program.old node → ReshapesBelow program.old program.new node }
{
    let _pushed = log.nodes.push(node);
    match node {
        IRNode::BasicBlock(block) => change_if_there(program, log, block),
        _ => {}
    }
}

/// Changes each block in an operation by a walk that is asked nothing.
///
/// # Errors
/// `WalkLimit`, where more calls than the limit would follow.
pub fn change_blocks(
    program: &mut Named,
    log: &mut Log,
    config: &WalkConfig,
    limit: u64,
    root: Ptr<Operation>,
) -> Result<(), WalkLimit>
    requires { IsSome (operation_at program.old root) }
{
    uninterruptible::mutable::walk_op(
        program,
        log,
        config,
        limit,
        root,
        |program: &mut Named, log: &mut Log, node: IRNode| {
            change(program, log, node);
        },
    )
}

/// Changes each block in an operation, but for those in the node to be skipped, and up to the node to break at.
///
/// # Errors
/// `WalkLimit`, where more calls than the limit would follow.
pub fn change_blocks_until(
    program: &mut Named,
    log: &mut Log,
    config: &WalkConfig,
    limit: u64,
    root: Ptr<Operation>,
) -> Result<WalkResult<()>, WalkLimit>
    requires { IsSome (operation_at program.old root) }
{
    interruptible::mutable::walk_op(
        program,
        log,
        config,
        limit,
        root,
        |program: &mut Named, log: &mut Log, node: IRNode| {
            change(program, log, node);
            if log.last == Some(node) {
                walk_break(())
            } else if log.skipped == Some(node) {
                walk_skip()
            } else {
                walk_advance()
            }
        },
    )
}
