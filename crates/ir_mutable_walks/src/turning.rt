//! From one call to the next: turns that call nothing.
ghost use Rattle.std.specs.Prelude.{◌≡◌, true, false, Some, None, IfSome};
ghost use Rattle.ir_program.specs.Lists.{IsLiveNode, StandsInside};
ghost use Rattle.ir_walks.specs.Turns.{called_at, node_of, IsKnown};
ghost use Rattle.ir_mutable_walks.specs.Passes.{ComesTo, GoesOn};

use ir_program::{IRNode, Program};
use ir_walks::turns::{Cursor, called_at, go_on};
use ir_walks::{WalkConfig, WalkContinue};

/// Lemma: what the program tells of the nodes in `root`. It does nothing.
pub(crate) fn know_inside<O, B>(program: &Program<O, B>, root: IRNode)
    requires { IsLiveNode program.now root }
    ensures { IsKnown program.now root }
{
    program.know_lists();
    let _nodes = program.nodes_inside(root);
}

/// The node that the walk is at.
pub(crate) fn node_of(at: Cursor) -> IRNode
    ensures { result ≡ node_of at }
{
    match at {
        Cursor::Arriving(node) => node,
        Cursor::Leaving(node) => node,
    }
}

/// Whether a node is called where the walk is.
fn is_called_at(config: &WalkConfig, at: Cursor) -> bool
    ensures yes { result ≡ true → called_at config.now at ≡ Some (node_of at) }
    ensures no { result ≡ false → called_at config.now at ≡ None }
{
    match called_at(config, at) {
        Some(_) => true,
        None => false,
    }
}

/// From a place on, the next one at which a walk of `root` calls a node, or None at its end.
pub(crate) fn next_call<O, B>(
    program: &Program<O, B>,
    config: &WalkConfig,
    root: IRNode,
    from: Option<Cursor>,
) -> Option<Cursor>
    requires known { IsKnown program.now root }
    requires inside { IfSome from (λ at. StandsInside program.now root (node_of at)) }
    ensures { ComesTo program.now config.now root from result }
{
    let mut at = from;
    'turns: while let Some(cursor) = at {
        if is_called_at(config, cursor) {
            return Some(cursor);
        }
        at = go_on(program, config, root, cursor, WalkContinue::Advance);
    }
    None
}

/// From a call on that answered so, the next place at which a walk of `root` calls a node, or None at its end.
pub(crate) fn go_to_next<O, B>(
    program: &Program<O, B>,
    config: &WalkConfig,
    root: IRNode,
    at: Cursor,
    answer: WalkContinue,
) -> Option<Cursor>
    requires known { IsKnown program.now root }
    requires inside { StandsInside program.now root (node_of at) }
    ensures { GoesOn program.now config.now root at answer result }
{
    let from = go_on(program, config, root, at, answer);
    next_call(program, config, root, from)
}
