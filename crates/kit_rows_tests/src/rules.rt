//! Modules that are read and then changed, so that no text writes what they are; and a path without names.
use crate::asserting::same;
use ir_characters::Characters;
use ir_context::{BlockCalls, Context, OperationCalls, SuccessorCalls};
use ir_program::{BasicBlock, IRNode, Operation, Ptr};
use ir_tokens::TextFault;
use kit::{Kit, let_go};
use kit_execution::execute;
use kit_flat::Outcome;
use kit_interpreter::ExecFault;
use kit_ops::KitOp;
use kit_verifier::verify_module;
use std::alloc::{AllocError, Global};
use std::test::Fail;
use text_reading::top_level_parse;

/// A function with a branch, and another one.
const MODULE: &str = "builtin.module @m {
  ^top():
    builtin.func @f: builtin.function <()->()> {
      ^entry():
        kit.br ^next();
      ^next():
        kit.return
    };
    builtin.func @g: builtin.function <()->()> {
      ^entry():
        kit.return
    }
}";

/// What is done to a module that was read.
#[derive(Clone, Copy)]
enum Change {
    /// Nothing.
    Nothing,
    /// The function stands for the module.
    FunctionAsRoot,
    /// The branch has no block to go on to.
    NoSuccessor,
    /// The branch goes on to the block of the other function.
    ForeignSuccessor,
}

/// What is done to the module, and the verdict on it then.
const VERDICTS: &[(Change, &str)] = &[
    (Change::Nothing, "ok"),
    (Change::FunctionAsRoot, "rule 1 at root"),
    (Change::NoSuccessor, "rule 14 at 0.0.0.0.0.0"),
    (Change::ForeignSuccessor, "rule 9 at 0.0.0.0.0.0"),
];

/// Reads the module.
fn read(alloc: Global, ctx: &mut Context<Kit>) -> Result<Ptr<Operation>, TextFault> {
    let chars = Characters::from_str(alloc, MODULE)?;
    top_level_parse(alloc, ctx, chars.as_text())
}

/// The first operation of a kind in another one; without one, the other one.
fn first_of(ctx: &Context<Kit>, root: Ptr<Operation>, kind: KitOp) -> Ptr<Operation> {
    if !root.is_live(ctx) {
        return root;
    }
    for node in ctx.program().nodes_inside(IRNode::Operation(root)) {
        match node {
            IRNode::Operation(op) if op.is_live(ctx) && op.kind(ctx) == kind => return op,
            _ => {}
        }
    }
    root
}

/// The last block in an operation.
fn last_block(ctx: &Context<Kit>, root: Ptr<Operation>) -> Option<Ptr<BasicBlock>> {
    let mut last = None;
    if !root.is_live(ctx) {
        return last;
    }
    for node in ctx.program().nodes_inside(IRNode::Operation(root)) {
        if let IRNode::BasicBlock(block) = node {
            last = Some(block);
        }
    }
    last
}

/// Takes an operation's last successor away.
fn cut(ctx: &mut Context<Kit>, op: Ptr<Operation>) {
    if op.is_live(ctx) {
        op.pop_successor(ctx);
    }
}

/// Gives an operation a successor.
fn lead(
    alloc: Global,
    ctx: &mut Context<Kit>,
    op: Ptr<Operation>,
    block: Ptr<BasicBlock>,
) -> Result<(), AllocError> {
    if op.is_live(ctx) && block.is_live(ctx) {
        op.push_successor(alloc, ctx, block)?;
    }
    Ok(())
}

/// Changes a module, and gives what stands for it then.
fn change_in(
    alloc: Global,
    ctx: &mut Context<Kit>,
    root: Ptr<Operation>,
    change: Change,
) -> Result<Ptr<Operation>, AllocError> {
    let branch = first_of(ctx, root, KitOp::Br);
    match (change, last_block(ctx, root)) {
        (Change::FunctionAsRoot, _) => return Ok(first_of(ctx, root, KitOp::Func)),
        (Change::NoSuccessor, _) => cut(ctx, branch),
        (Change::ForeignSuccessor, Some(block)) => {
            cut(ctx, branch);
            lead(alloc, ctx, branch, block)?;
        }
        _ => {}
    }
    Ok(root)
}

/// The verdict on a module, in words.
fn words_of(alloc: Global, ctx: &Context<Kit>, root: Ptr<Operation>) -> Result<String, AllocError> {
    if !root.is_live(ctx) {
        return String::from_str(alloc, "nothing");
    }
    match verify_module(alloc, ctx, root) {
        Ok(()) => String::from_str(alloc, "ok"),
        Err(fault) => format!(in alloc; "{fault}"),
    }
}

/// The verdict on the module once it is read into a context and changed, in words.
fn verdict_in(alloc: Global, ctx: &mut Context<Kit>, change: Change) -> Result<String, TextFault> {
    let root = read(alloc, ctx)?;
    let changed = change_in(alloc, ctx, root, change)?;
    Ok(words_of(alloc, ctx, changed)?)
}

/// The verdict on the module once it is changed, in words.
fn verdict(alloc: Global, change: Change) -> Result<String, TextFault> {
    let mut ctx = Context::new(alloc);
    let words = verdict_in(alloc, &mut ctx, change);
    let_go(ctx);
    words
}

#[test]
fn modules_that_no_text_writes_have_their_verdicts(rt: HostRuntime) -> Result<(), Fail> {
    for (change, words) in VERDICTS {
        same(&rt, verdict(rt.alloc(), *change)?.as_str(), *words);
    }
    Ok(())
}

/// What a module answers at the path without names, if it keeps the rules.
fn answer_of(
    alloc: Global,
    ctx: &Context<Kit>,
    root: Ptr<Operation>,
) -> Option<Result<Outcome, ExecFault>> {
    if !root.is_live(ctx) {
        return None;
    }
    match verify_module(alloc, ctx, root) {
        Ok(()) => Some(execute(alloc, ctx, root, &[], &[], 9)),
        Err(_) => None,
    }
}

/// What the module answers at the path without names, once it is read into a context.
fn answer_in(
    alloc: Global,
    ctx: &mut Context<Kit>,
) -> Result<Option<Result<Outcome, ExecFault>>, TextFault> {
    let root = read(alloc, ctx)?;
    Ok(answer_of(alloc, ctx, root))
}

/// What the module answers at the path without names.
fn answer(alloc: Global) -> Result<Option<Result<Outcome, ExecFault>>, TextFault> {
    let mut ctx = Context::new(alloc);
    let answer = answer_in(alloc, &mut ctx);
    let_go(ctx);
    answer
}

#[test]
fn path_without_names_leads_to_no_function(rt: HostRuntime) -> Result<(), Fail> {
    same(&rt, answer(rt.alloc())?, Some(Err(ExecFault::WrongPath)));
    Ok(())
}
