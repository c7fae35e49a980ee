//! Walks of a node, of whichever kind.
ghost use Rattle.std.specs.Prelude.{◌≡◌};
ghost use Rattle.std.specs.declared.ops.ControlFlow.TheVariants.{Continue};
ghost use Rattle.ir_program.specs.Lists.{IsLiveNode, StandsInside};
ghost use Rattle.ir_walks.specs.Calls.{CalledOn, IsAsked, EndsWalk, IsVisited};
ghost use Rattle.ir_walks.specs.Turns.{called_at, node_of, IsTurn, IsKnown};
ghost use Rattle.ir_walks.specs.declared.results.WalkContinue.TheVariants.{Advance};

use crate::config::WalkConfig;
use crate::results::{WalkContinue, WalkResult, walk_advance};
use crate::turns::{Cursor, called_at, go_on};
use ir_program::{IRNode, Program};
use std::ops::ControlFlow;

/// Lemma: what the program tells of the nodes in `root`. It does nothing.
fn know_inside<O, B>(program: &Program<O, B>, root: IRNode)
    requires { IsLiveNode program.now root }
    ensures { IsKnown program.now root }
{
    program.know_lists();
    let _nodes = program.nodes_inside(root);
}

/// Calls the callback at a node.
fn call<C, S, R, F: FnMut(&C, &mut S, IRNode) -> R>(
    ctx: &C,
    state: &mut S,
    node: IRNode,
    callback: &mut F,
) -> R
    requires { (f : F) (c : _) (s : _) (n : _) → F.pre f c s n }
    ensures { CalledOn F.FnMut ctx.now callback.old state.old node result callback.new state.new }
{
    callback(ctx, state, node)
}

/// Calls the callback at the node that is called where the walk is, if there is one.
fn ask<C, S, K: Drop, F: FnMut(&C, &mut S, IRNode) -> WalkResult<K>>(
    ctx: &C,
    state: &mut S,
    config: &WalkConfig,
    at: Cursor,
    callback: &mut F,
) -> WalkResult<K>
    requires { (f : F) (c : _) (s : _) (n : _) → F.pre f c s n }
    ensures { IsAsked F.FnMut ctx.now (called_at config.now at) (Continue Advance) callback.old state.old result
        callback.new state.new }
{
    match called_at(config, at) {
        Some(node) => call(ctx, state, node, callback),
        None => walk_advance(),
    }
}

/// Walks over a node of a program and all that stands in it, one turn at a time. The callback is shown `ctx`.
pub(crate) fn walk_node<O, B, C, S, K: Drop, F: FnMut(&C, &mut S, IRNode) -> WalkResult<K>>(
    program: &Program<O, B>,
    ctx: &C,
    state: &mut S,
    config: &WalkConfig,
    root: IRNode,
    mut callback: F,
) -> WalkResult<K>
    requires live { IsLiveNode program.now root }
    requires callable { (f : F) (c : _) (s : _) (n : _) → F.pre f c s n }
    ensures { EndsWalk program.now config.now root F.FnMut ctx.now callback state.old result state.new }
{
    know_inside(program, root);
    let mut at = Some(Cursor::Arriving(root));
    'turns: while let Some(cursor) = at {
        match ask(ctx, state, config, cursor, &mut callback) {
            ControlFlow::Break(value) => return ControlFlow::Break(value),
            ControlFlow::Continue(answer) => at = go_on(program, config, root, cursor, answer),
        }
    }
    walk_advance()
}

/// Calls the callback at the node that is called where the walk is, if there is one. It has nothing to answer.
fn show<C, S, F: FnMut(&C, &mut S, IRNode)>(
    ctx: &C,
    state: &mut S,
    config: &WalkConfig,
    at: Cursor,
    callback: &mut F,
)
    requires { (f : F) (c : _) (s : _) (n : _) → F.pre f c s n }
    ensures { IsAsked F.FnMut ctx.now (called_at config.now at) tt callback.old state.old tt
        callback.new state.new }
{
    if let Some(node) = called_at(config, at) {
        call(ctx, state, node, callback);
    }
}

/// Walks over a node of a program and all that stands in it, one turn at a time, without skipping and up to the end.
/// The callback is shown `ctx`.
pub(crate) fn visit_node<O, B, C, S, F: FnMut(&C, &mut S, IRNode)>(
    program: &Program<O, B>,
    ctx: &C,
    state: &mut S,
    config: &WalkConfig,
    root: IRNode,
    mut callback: F,
)
    requires live { IsLiveNode program.now root }
    requires callable { (f : F) (c : _) (s : _) (n : _) → F.pre f c s n }
    ensures { IsVisited program.now config.now root F.FnMut ctx.now callback state.old state.new }
{
    know_inside(program, root);
    let mut at = Some(Cursor::Arriving(root));
    'turns: while let Some(cursor) = at {
        show(ctx, state, config, cursor, &mut callback);
        at = go_on(program, config, root, cursor, WalkContinue::Advance);
    }
}
