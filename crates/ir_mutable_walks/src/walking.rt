//! Walks of a node, of whichever kind.
ghost use Rattle.std.specs.Prelude.{◌≡◌};
ghost use Rattle.ir_program.specs.Lists.{IsLiveNode, StandsInside};
ghost use Rattle.ir_walks.specs.Turns.{node_of, IsKnown};
ghost use Rattle.ir_walks.specs.declared.results.WalkContinue.TheVariants.{Advance};
ghost use Rattle.ir_mutable_walks.specs.Changes.{moment, ChangesOn, ReshapesBelow, AlwaysReshapesBelow};
ghost use Rattle.ir_mutable_walks.specs.Ends.{EndsMutWalk, EndsMutVisit};
ghost use Rattle.ir_mutable_walks.specs.Passes.{IsAtCall, Starts, GoesOn, Leaves, EndsCall};

use crate::limit::WalkLimit;
use crate::turning::{go_to_next, know_inside, next_call, node_of};
use ir_program::IRNode;
use ir_walks::turns::Cursor;
use ir_walks::{HasProgram, WalkConfig, WalkContinue, WalkResult};
use std::ops::ControlFlow;

/// Lemma: what the program of a context tells of the nodes in `root`. It does nothing.
fn know_context<O, B, C: HasProgram<O, B>>(ctx: &C, root: IRNode)
    requires { IsLiveNode (C.program_of ctx.now) root }
    ensures { IsKnown (C.program_of ctx.now) root }
{
    know_inside(ctx.walked_program(), root);
}

/// Where a walk of `root` makes its first call, or None where it makes none.
fn first_call<O, B, C: HasProgram<O, B>>(
    ctx: &C,
    config: &WalkConfig,
    root: IRNode,
) -> Option<Cursor>
    requires { IsLiveNode (C.program_of ctx.now) root }
    ensures { Starts (C.program_of ctx.now) config.now root result }
{
    know_context(ctx, root);
    next_call(
        ctx.walked_program(),
        config,
        root,
        Some(Cursor::Arriving(root)),
    )
}

/// After a call that answered so, where a walk of `root` makes the next one, or None where it makes none.
fn after_call<O, B, C: HasProgram<O, B>>(
    ctx: &C,
    config: &WalkConfig,
    root: IRNode,
    at: Cursor,
    answer: WalkContinue,
) -> Option<Cursor>
    requires known { IsKnown (C.program_of ctx.now) root }
    requires inside { StandsInside (C.program_of ctx.now) root (node_of at) }
    ensures { GoesOn (C.program_of ctx.now) config.now root at answer result }
{
    go_to_next(ctx.walked_program(), config, root, at, answer)
}

/// Calls the callback at a node.
fn call<O, B, C: HasProgram<O, B>, S, R, F: FnMut(&mut C, &mut S, IRNode) -> R>(
    ctx: &mut C,
    state: &mut S,
    node: IRNode,
    callback: &mut F,
) -> R
    requires live { IsLiveNode (C.program_of ctx.old) node }
    requires callable { (f : F) (c : _) (s : _) (n : _) → F.pre f c s n }
    requires below { AlwaysReshapesBelow C.program_of F.FnMut }
    ensures changes { ChangesOn F.FnMut (moment callback.old ctx.old state.old) node result
        (moment callback.new ctx.new state.new) }
    ensures below { ReshapesBelow (C.program_of ctx.old) (C.program_of ctx.new) node }
{
    callback(ctx, state, node)
}

/// Calls the callback at a node in `root`.
fn call_inside<O, B, C: HasProgram<O, B>, S, R, F: FnMut(&mut C, &mut S, IRNode) -> R>(
    ctx: &mut C,
    state: &mut S,
    root: IRNode,
    node: IRNode,
    callback: &mut F,
) -> R
    requires live { IsLiveNode (C.program_of ctx.old) root }
    requires inside { StandsInside (C.program_of ctx.old) root node }
    requires callable { (f : F) (c : _) (s : _) (n : _) → F.pre f c s n }
    requires below { AlwaysReshapesBelow C.program_of F.FnMut }
    ensures changes { ChangesOn F.FnMut (moment callback.old ctx.old state.old) node result
        (moment callback.new ctx.new state.new) }
    ensures before { IsKnown (C.program_of ctx.old) root }
    ensures live { IsLiveNode (C.program_of ctx.new) root }
    ensures below { ReshapesBelow (C.program_of ctx.old) (C.program_of ctx.new) node }
{
    know_context(ctx, root);
    call(ctx, state, node, callback)
}

/// Calls the callback at a node in `root`, and tells what it left.
fn call_and_know<O, B, C: HasProgram<O, B>, S, R, F: FnMut(&mut C, &mut S, IRNode) -> R>(
    ctx: &mut C,
    state: &mut S,
    root: IRNode,
    node: IRNode,
    callback: &mut F,
) -> R
    requires live { IsLiveNode (C.program_of ctx.old) root }
    requires inside { StandsInside (C.program_of ctx.old) root node }
    requires callable { (f : F) (c : _) (s : _) (n : _) → F.pre f c s n }
    requires below { AlwaysReshapesBelow C.program_of F.FnMut }
    ensures changes { ChangesOn F.FnMut (moment callback.old ctx.old state.old) node result
        (moment callback.new ctx.new state.new) }
    ensures leaves { Leaves root (C.program_of ctx.old) (C.program_of ctx.new) node }
    ensures inside { StandsInside (C.program_of ctx.new) root node }
{
    let answer = call_inside(ctx, state, root, node, callback);
    know_context(ctx, root);
    answer
}

/// Calls the callback where a walk of `root` is, and goes on to where it makes the next call.
fn call_and_go<
    O,
    B,
    C: HasProgram<O, B>,
    S,
    K: Drop,
    F: FnMut(&mut C, &mut S, IRNode) -> WalkResult<K>,
>(
    ctx: &mut C,
    state: &mut S,
    config: &WalkConfig,
    root: IRNode,
    at: Cursor,
    callback: &mut F,
) -> ControlFlow<K, Option<Cursor>>
    requires live { IsLiveNode (C.program_of ctx.old) root }
    requires stops { IsAtCall (C.program_of ctx.old) config.now root at }
    requires callable { (f : F) (c : _) (s : _) (n : _) → F.pre f c s n }
    requires below { AlwaysReshapesBelow C.program_of F.FnMut }
    ensures leaves { Leaves root (C.program_of ctx.old) (C.program_of ctx.new) (node_of at) }
    ensures call { EndsCall C.program_of config.now root at F.FnMut (moment callback.old ctx.old state.old) result
        (moment callback.new ctx.new state.new) }
{
    match call_and_know(ctx, state, root, node_of(at), callback) {
        ControlFlow::Break(value) => ControlFlow::Break(value),
        ControlFlow::Continue(answer) => {
            ControlFlow::Continue(after_call(ctx, config, root, at, answer))
        }
    }
}

/// Walks over a node and all that stands in it, one call at a time.
pub(crate) fn walk_node<
    O,
    B,
    C: HasProgram<O, B>,
    S,
    K: Drop,
    F: FnMut(&mut C, &mut S, IRNode) -> WalkResult<K>,
>(
    ctx: &mut C,
    state: &mut S,
    config: &WalkConfig,
    limit: u64,
    root: IRNode,
    mut callback: F,
) -> Result<WalkResult<K>, WalkLimit>
    requires live { IsLiveNode (C.program_of ctx.old) root }
    requires callable { (f : F) (c : _) (s : _) (n : _) → F.pre f c s n }
    requires below { AlwaysReshapesBelow C.program_of F.FnMut }
    ensures { EndsMutWalk C.program_of config.now root limit F.FnMut callback ctx.old state.old result ctx.new
        state.new }
{
    let mut at = first_call(ctx, config, root);
    let mut left = limit;
    'calls: while let Some(cursor) = at {
        if left == 0 {
            return Err(WalkLimit);
        }
        match call_and_go(ctx, state, config, root, cursor, &mut callback) {
            ControlFlow::Break(value) => return Ok(ControlFlow::Break(value)),
            ControlFlow::Continue(next) => {
                at = next;
                left -= 1;
            }
        }
    }
    Ok(ControlFlow::Continue(WalkContinue::Advance))
}

/// Calls the callback where a walk of `root` is, and goes on to where it makes the next call. The callback has nothing to
/// answer.
fn show_and_go<O, B, C: HasProgram<O, B>, S, F: FnMut(&mut C, &mut S, IRNode)>(
    ctx: &mut C,
    state: &mut S,
    config: &WalkConfig,
    root: IRNode,
    at: Cursor,
    callback: &mut F,
) -> Option<Cursor>
    requires live { IsLiveNode (C.program_of ctx.old) root }
    requires stops { IsAtCall (C.program_of ctx.old) config.now root at }
    requires callable { (f : F) (c : _) (s : _) (n : _) → F.pre f c s n }
    requires below { AlwaysReshapesBelow C.program_of F.FnMut }
    ensures leaves { Leaves root (C.program_of ctx.old) (C.program_of ctx.new) (node_of at) }
    ensures call { ChangesOn F.FnMut (moment callback.old ctx.old state.old) (node_of at) tt
        (moment callback.new ctx.new state.new) }
    ensures goes_on { GoesOn (C.program_of ctx.new) config.now root at Advance result }
{
    call_and_know(ctx, state, root, node_of(at), callback);
    after_call(ctx, config, root, at, WalkContinue::Advance)
}

/// Walks over a node and all that stands in it, one call at a time, without skipping and up to the end or the limit.
pub(crate) fn visit_node<O, B, C: HasProgram<O, B>, S, F: FnMut(&mut C, &mut S, IRNode)>(
    ctx: &mut C,
    state: &mut S,
    config: &WalkConfig,
    limit: u64,
    root: IRNode,
    mut callback: F,
) -> Result<(), WalkLimit>
    requires live { IsLiveNode (C.program_of ctx.old) root }
    requires callable { (f : F) (c : _) (s : _) (n : _) → F.pre f c s n }
    requires below { AlwaysReshapesBelow C.program_of F.FnMut }
    ensures { EndsMutVisit C.program_of config.now root limit F.FnMut callback ctx.old state.old result ctx.new
        state.new }
{
    let mut at = first_call(ctx, config, root);
    let mut left = limit;
    'calls: while let Some(cursor) = at {
        if left == 0 {
            return Err(WalkLimit);
        }
        at = show_and_go(ctx, state, config, root, cursor, &mut callback);
        left -= 1;
    }
    Ok(())
}
