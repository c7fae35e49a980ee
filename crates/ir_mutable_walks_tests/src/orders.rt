//! Which nodes are called while they change, and at which call a walk meets its limit.
use crate::callers::{Log, Named, change_blocks, change_blocks_until, count_nodes_mut};
use crate::modules::{Module, finish, make, names};
use ir_mutable_walks::WalkLimit;
use ir_program::{IRNode, Program};
use ir_walks::{
    WALKCONFIG_POSTORDER_FORWARD, WALKCONFIG_PREORDER_FORWARD, WalkConfig, WalkContinue,
};
use std::alloc::{AllocError, Global};
use std::ops::ControlFlow;
use std::process::Abort;
use std::test::Fail;

/// A callback that did nothing so far, and puts an operation behind those of each block, or takes the last one out.
fn new_log(alloc: Global, added: Option<char>) -> Log {
    Log {
        nodes: Vec::new(alloc),
        added,
        skipped: None,
        last: None,
        alloc,
    }
}

/// Asserts which nodes a walk called, by their names, and how it ended.
fn called(
    rt: &impl Abort,
    alloc: Global,
    program: &Named,
    log: &Log,
    wanted: &str,
) -> Result<(), AllocError> {
    let text = names(alloc, program, &log.nodes)?;
    assert_eq!(rt; text.as_str(), wanted);
    Ok(())
}

/// Makes the module, puts an operation into each of its blocks by a walk, and asserts what that calls.
fn check_adding(
    rt: &impl Abort,
    alloc: Global,
    config: &WalkConfig,
    limit: u64,
    wanted: &str,
    end: Result<(), WalkLimit>,
) -> Result<(), AllocError> {
    let mut program: Named = Program::new(alloc);
    let made = make(alloc, &mut program)?;
    let mut log = new_log(alloc, Some('e'));
    if program.has_operation(made.module) {
        assert_eq!(rt;
            change_blocks(&mut program, &mut log, config, limit, made.module),
            end
        );
    }
    called(rt, alloc, &program, &log, wanted)?;
    finish(program);
    Ok(())
}

/// Asserts what walks call while operations come, in both orders, and where they meet a limit.
fn check_orders(rt: &impl Abort, alloc: Global) -> Result<(), AllocError> {
    let pre = WALKCONFIG_PREORDER_FORWARD;
    let post = WALKCONFIG_POSTORDER_FORWARD;
    // In pre-order the operations that came are called, in post-order they aren't.
    check_adding(rt, alloc, &pre, 15, "mrbxrcpqeryedze", Ok(()))?;
    check_adding(rt, alloc, &post, 12, "pqcrrxybzdrm", Ok(()))?;
    check_adding(rt, alloc, &pre, 14, "mrbxrcpqeryedz", Err(WalkLimit))?;
    check_adding(rt, alloc, &post, 11, "pqcrrxybzdr", Err(WalkLimit))?;
    check_adding(rt, alloc, &pre, 0, "", Err(WalkLimit))
}

/// Asserts how many nodes are in the module, and takes an operation out of each block by a walk that skips what is in `x`,
/// and by one that breaks at a node.
fn check_taking(
    rt: &impl Abort,
    alloc: Global,
    program: &mut Named,
    made: Module,
) -> Result<(), AllocError> {
    if program.has_operation(made.module) {
        assert_eq!(rt; count_nodes_mut(program, 12, made.module), Ok(12));
    }
    if program.has_operation(made.module) {
        assert_eq!(rt; count_nodes_mut(program, 11, made.module), Err(WalkLimit));
    }
    let mut log = new_log(alloc, None);
    log.skipped = Some(IRNode::Operation(made.holder));
    if program.has_operation(made.module) {
        let end = change_blocks_until(program, &mut log, &WalkConfig::default(), 6, made.module);
        assert_eq!(rt; end, Ok(ControlFlow::Continue(WalkContinue::Advance)));
    }
    called(rt, alloc, program, &log, "mrbxd")?;
    let mut again = new_log(alloc, None);
    again.last = Some(IRNode::BasicBlock(made.block));
    if program.has_operation(made.module) {
        let end = change_blocks_until(program, &mut again, &WalkConfig::default(), 6, made.module);
        assert_eq!(rt; end, Ok(ControlFlow::Break(())));
    }
    called(rt, alloc, program, &again, "mrb")
}

#[test]
fn nodes_are_called_while_they_change(rt: HostRuntime) -> Result<(), Fail> {
    check_orders(&rt, rt.alloc())?;
    let mut program: Named = Program::new(rt.alloc());
    let made = make(rt.alloc(), &mut program)?;
    check_taking(&rt, rt.alloc(), &mut program, made)?;
    finish(program);
    Ok(())
}
