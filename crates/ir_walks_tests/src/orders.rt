//! In which order nodes are called, and which.
use crate::modules::{Module, Named, finish, make, names};
use ir_program::{IRNode, Program};
use ir_walks::{
    WALKCONFIG_POSTORDER_FORWARD, WALKCONFIG_POSTORDER_REVERSE, WALKCONFIG_PREORDER_FORWARD,
    WALKCONFIG_PREORDER_REVERSE, WalkConfig, WalkResult, interruptible, uninterruptible,
    walk_advance, walk_break, walk_skip,
};
use std::alloc::{AllocError, Global};
use std::process::Abort;
use std::test::Fail;

/// The nodes that a walk calls to which nothing is answered.
fn visited(alloc: Global, program: &Named, config: &WalkConfig, root: IRNode) -> Vec<IRNode> {
    let mut nodes = Vec::new(alloc);
    let see = |_program: &Named, nodes: &mut Vec<IRNode>, node: IRNode| {
        let _pushed = nodes.push(node);
    };
    match root {
        IRNode::Operation(op) => {
            if program.has_operation(op) {
                uninterruptible::immutable::walk_op(program, &mut nodes, config, op, see);
            }
        }
        IRNode::Region(region) => {
            if program.has_region(region) {
                uninterruptible::immutable::walk_region(program, &mut nodes, config, region, see);
            }
        }
        IRNode::BasicBlock(block) => {
            if program.has_block(block) {
                uninterruptible::immutable::walk_block(program, &mut nodes, config, block, see);
            }
        }
    }
    nodes
}

/// The nodes that a walk calls that skips what stands in one, and breaks at another.
fn called(
    alloc: Global,
    program: &Named,
    config: &WalkConfig,
    root: IRNode,
    skipped: IRNode,
    last: IRNode,
) -> Vec<IRNode> {
    let mut nodes = Vec::new(alloc);
    let see = |_program: &Named, nodes: &mut Vec<IRNode>, node: IRNode| {
        let _pushed = nodes.push(node);
        if node == last {
            walk_break(())
        } else if node == skipped {
            walk_skip()
        } else {
            walk_advance()
        }
    };
    match root {
        IRNode::Operation(op) => {
            if program.has_operation(op) {
                let _end: WalkResult<()> = interruptible::immutable::walk_op(
                    program, &mut nodes, config, op, see,
                );
            }
        }
        IRNode::Region(region) => {
            if program.has_region(region) {
                let _end: WalkResult<()> = interruptible::immutable::walk_region(
                    program, &mut nodes, config, region, see,
                );
            }
        }
        IRNode::BasicBlock(block) => {
            if program.has_block(block) {
                let _end: WalkResult<()> = interruptible::immutable::walk_block(
                    program, &mut nodes, config, block, see,
                );
            }
        }
    }
    nodes
}

/// Asserts that the nodes have these names.
fn same(
    rt: &impl Abort,
    alloc: Global,
    program: &Named,
    nodes: Vec<IRNode>,
    wanted: &str,
) -> Result<(), AllocError> {
    let text = names(alloc, program, &nodes)?;
    assert_eq!(rt; text.as_str(), wanted);
    Ok(())
}

/// Asserts in which order whole walks call.
fn check_whole(
    rt: &impl Abort,
    alloc: Global,
    program: &Named,
    made: Module,
) -> Result<(), AllocError> {
    let orders = [
        (WALKCONFIG_PREORDER_FORWARD, "mrbxrcpqrydz"),
        (WALKCONFIG_PREORDER_REVERSE, "mrdzbyxrrcqp"),
        (WALKCONFIG_POSTORDER_FORWARD, "pqcrrxybzdrm"),
        (WALKCONFIG_POSTORDER_REVERSE, "zdyrqpcrxbrm"),
    ];
    for (config, wanted) in &orders {
        let nodes = visited(alloc, program, config, IRNode::Operation(made.module));
        same(rt, alloc, program, nodes, wanted)?;
    }
    let config = WalkConfig::default();
    let region = visited(alloc, program, &config, IRNode::Region(made.region));
    same(rt, alloc, program, region, "rbxrcpqrydz")?;
    let block = visited(alloc, program, &config, IRNode::BasicBlock(made.block));
    same(rt, alloc, program, block, "bxrcpqry")
}

/// Asserts what walks call that skip what is in `x`, or break at `p`.
fn check_parts(
    rt: &impl Abort,
    alloc: Global,
    program: &Named,
    made: Module,
) -> Result<(), AllocError> {
    let config = WalkConfig::default();
    let x = IRNode::Operation(made.holder);
    let p = IRNode::Operation(made.inner);
    let roots = [
        (IRNode::Operation(made.module), "mrbxydz", "mrbxrcp"),
        (IRNode::Region(made.region), "rbxydz", "rbxrcp"),
        (IRNode::BasicBlock(made.block), "bxy", "bxrcp"),
    ];
    for (root, skipping, breaking) in &roots {
        let skips = called(alloc, program, &config, *root, x, p);
        same(rt, alloc, program, skips, skipping)?;
        let breaks = called(alloc, program, &config, *root, p, p);
        same(rt, alloc, program, breaks, breaking)?;
    }
    // After what stands in a node there is nothing to skip.
    let last = called(
        alloc,
        program,
        &WALKCONFIG_POSTORDER_FORWARD,
        IRNode::Operation(made.module),
        x,
        x,
    );
    same(rt, alloc, program, last, "pqcrrx")
}

/// Makes the module and asserts what walks of it call.
fn check(rt: &impl Abort, alloc: Global, program: &mut Named) -> Result<(), AllocError> {
    let made = make(alloc, program)?;
    check_whole(rt, alloc, program, made)?;
    check_parts(rt, alloc, program, made)
}

#[test]
fn nodes_are_called_in_order(rt: HostRuntime) -> Result<(), Fail> {
    let mut program: Named = Program::new(rt.alloc());
    let outcome = check(&rt, rt.alloc(), &mut program);
    finish(program);
    outcome?;
    Ok(())
}
