//! Walks over the operations of a symbol table. They ask for no memory, and don't recur.
ghost use Rattle.std.specs.Prelude.{◌≡◌, ◌↔◌, IsSome, IsTrue};
ghost use Rattle.std.specs.declared.ops.ControlFlow.TheVariants.{Continue};
ghost use Rattle.ir_program.specs.Lists.{IsLiveNode};
ghost use Rattle.ir_program.specs.Program.{operation_at};
ghost use Rattle.ir_symbols.specs.TableWalks.{CalledAt, EndsTableWalk, IsAskedAt, IsAskedOf, IsNestedTable};
ghost use Rattle.ir_walks.specs.Turns.{node_of, IsKnown};

use crate::payload::SymbolPayload;
use crate::scanning::is_table;
use ir_program::{IRNode, Operation, Program, Ptr};
use ir_walks::turns::{Cursor, go_on};
use ir_walks::{
    HasProgram, WALKCONFIG_PREORDER_FORWARD, WalkResult, walk_advance, walk_break, walk_skip,
};
use std::ops::ControlFlow;

/// Lemma: what the program tells of the nodes in `root`. It does nothing.
fn know_inside<O, B>(program: &Program<O, B>, root: IRNode)
    requires { IsLiveNode program.now root }
    ensures { IsKnown program.now root }
{
    program.know_lists();
    let _nodes = program.nodes_inside(root);
}

/// Whether an operation holds a table, and is another than the one that is walked.
fn is_nested_table<O: SymbolPayload, B>(
    program: &Program<O, B>,
    root: Ptr<Operation>,
    op: Ptr<Operation>,
) -> bool
    requires { IsSome (operation_at program.now op) }
    ensures { IsTrue result ↔ IsNestedTable O.holds_table program.now root op }
{
    op != root && is_table(program, op)
}

/// Calls the callback at an operation.
fn call<C, S, R, F: FnMut(&C, &mut S, Ptr<Operation>) -> R>(
    ctx: &C,
    state: &mut S,
    op: Ptr<Operation>,
    callback: &mut F,
) -> R
    requires { (f : F) (c : _) (s : _) (n : _) → F.pre f c s n }
    ensures { CalledAt F.FnMut ctx.now callback.old state.old op result callback.new state.new }
{
    callback(ctx, state, op)
}

/// Calls the callback at an operation, and tells how the walk goes on: past what stands in a nested table.
fn ask<O: SymbolPayload, B, C, S, K: Drop, F: FnMut(&C, &mut S, Ptr<Operation>) -> WalkResult<K>>(
    program: &Program<O, B>,
    ctx: &C,
    state: &mut S,
    root: Ptr<Operation>,
    op: Ptr<Operation>,
    callback: &mut F,
) -> WalkResult<K>
    requires live { IsSome (operation_at program.now op) }
    requires callable { (f : F) (c : _) (s : _) (n : _) → F.pre f c s n }
    ensures { IsAskedOf O.holds_table program.now root F.FnMut ctx.now op callback.old state.old result callback.new
        state.new }
{
    match call(ctx, state, op, callback) {
        ControlFlow::Break(value) => walk_break(value),
        ControlFlow::Continue(answer) => {
            if is_nested_table(program, root, op) {
                return walk_skip();
            }
            ControlFlow::Continue(answer)
        }
    }
}

/// Calls the callback where the walk arrives at an operation.
fn ask_at<
    O: SymbolPayload,
    B,
    C,
    S,
    K: Drop,
    F: FnMut(&C, &mut S, Ptr<Operation>) -> WalkResult<K>,
>(
    program: &Program<O, B>,
    ctx: &C,
    state: &mut S,
    root: Ptr<Operation>,
    at: Cursor,
    callback: &mut F,
) -> WalkResult<K>
    requires live { IsLiveNode program.now (node_of at) }
    requires callable { (f : F) (c : _) (s : _) (n : _) → F.pre f c s n }
    ensures { IsAskedAt O.holds_table program.now root F.FnMut ctx.now at callback.old state.old result callback.new
        state.new }
{
    match at {
        Cursor::Arriving(node) => match node {
            IRNode::Operation(op) => ask(program, ctx, state, root, op, callback),
            IRNode::Region(_) => walk_advance(),
            IRNode::BasicBlock(_) => walk_advance(),
        },
        Cursor::Leaving(_) => walk_advance(),
    }
}

/// Walks over an operation of a program that holds a symbol table. The callback is shown `ctx`.
fn walk_table<
    O: SymbolPayload,
    B,
    C,
    S,
    K: Drop,
    F: FnMut(&C, &mut S, Ptr<Operation>) -> WalkResult<K>,
>(
    program: &Program<O, B>,
    ctx: &C,
    state: &mut S,
    table: Ptr<Operation>,
    mut callback: F,
) -> WalkResult<K>
    requires live { IsSome (operation_at program.now table) }
    requires callable { (f : F) (c : _) (s : _) (n : _) → F.pre f c s n }
    ensures { EndsTableWalk O.holds_table program.now table F.FnMut ctx.now callback state.old result state.new }
{
    let root = IRNode::Operation(table);
    know_inside(program, root);
    let mut at = Some(Cursor::Arriving(root));
    'turns: while let Some(cursor) = at {
        match ask_at(program, ctx, state, table, cursor, &mut callback) {
            ControlFlow::Break(value) => return ControlFlow::Break(value),
            ControlFlow::Continue(answer) => {
                at = go_on(program, &WALKCONFIG_PREORDER_FORWARD, root, cursor, answer);
            }
        }
    }
    walk_advance()
}

/// Walks over an operation that holds a symbol table: calls the callback at the operation, then at each operation that
/// stands in it, as `WALKCONFIG_PREORDER_FORWARD` has them. A nested table is called, but nothing that stands in it:
/// its symbols are its own. `Skip` leaves out what stands in the operation; the first `Break` ends the walk, and is what
/// the walk answers.
pub fn walk_symbol_table<
    O: SymbolPayload,
    B,
    C: HasProgram<O, B>,
    S,
    K: Drop,
    F: FnMut(&C, &mut S, Ptr<Operation>) -> WalkResult<K>,
>(ctx: &C, state: &mut S, table: Ptr<Operation>, callback: F) -> WalkResult<K>
    requires live { IsSome (operation_at (C.program_of ctx.now) table) }
    requires callable { (f : F) (c : _) (s : _) (n : _) → F.pre f c s n }
    ensures { EndsTableWalk O.holds_table (C.program_of ctx.now) table F.FnMut ctx.now callback state.old result
        state.new }
{
    walk_table(ctx.walked_program(), ctx, state, table, callback)
}
