//! Locations inside an operation, taken away one after the other.
ghost use Rattle.std.specs.Prelude.{◌≡◌, Some, IsSome};
ghost use Rattle.ir_context.specs.Kept.{location_at, block_location_at};
ghost use Rattle.ir_program.specs.Lists.{IsLiveNode, StandsInside};
ghost use Rattle.ir_program.specs.Program.{operation_at};
ghost use Rattle.ir_program.specs.declared.handles.BasicBlock.{BasicBlock};
ghost use Rattle.ir_program.specs.declared.handles.IRNode.TheVariants.{Operation as OperationNode, BasicBlock as BlockNode};
ghost use Rattle.ir_program.specs.declared.handles.Operation.{Operation};
ghost use Rattle.ir_program.specs.declared.handles.Ptr.{Ptr};
ghost use Rattle.ir_walks.specs.Levels.{preset};
ghost use Rattle.ir_walks.specs.Turns.{IsKnown, IsTurn, node_of};
ghost use Rattle.ir_walks.specs.declared.config.Direction.TheVariants.{Forward};
ghost use Rattle.ir_walks.specs.declared.config.Order.TheVariants.{PreOrder};
ghost use Rattle.ir_walks.specs.declared.results.WalkContinue.TheVariants.{Advance};
ghost use Rattle.location_erasing.specs.Located.{LocatesAt, LocatesInside, LocatesOnArriving};

use ir_context::{BlockChanges, Context, OperationChanges};
use ir_program::{IRNode, Operation, Program, Ptr};
use ir_types::DialectTables;
use ir_walks::turns::{Cursor, go_on};
use ir_walks::{WALKCONFIG_PREORDER_FORWARD, WalkContinue};

/// Lemma: what a program tells of the nodes in `root`. It does nothing.
fn know_inside<O, B>(program: &Program<O, B>, root: IRNode)
    requires { IsLiveNode program.now root }
    ensures { IsKnown program.now root }
{
    program.know_lists();
    let _nodes = program.nodes_inside(root);
}

/// Lemma: what the program of a context tells of the nodes in `root`. It does nothing.
fn know_context<D: DialectTables>(ctx: &Context<D>, root: IRNode)
    requires { IsLiveNode ctx.now.program root }
    ensures { IsKnown ctx.now.program root }
{
    know_inside(ctx.program(), root);
}

/// Takes its location away from a node. A region has none.
fn erase_at<D: DialectTables>(ctx: &mut Context<D>, node: IRNode)
    requires { IsLiveNode ctx.old.program node }
    ensures erased { LocatesAt ctx.old.program ctx.new.program node D.nowhere }
    ensures types { ctx.new.types ≡ ctx.old.types }
{
    match node {
        IRNode::Operation(op) => op.set_loc(ctx, D::unknown_location()),
        IRNode::BasicBlock(block) => block.set_loc(ctx, D::unknown_location()),
        IRNode::Region(_) => {}
    }
}

/// Takes its location away from the node at which a walk arrives. Where the walk leaves one, nothing is done.
fn erase_on_arriving<D: DialectTables>(ctx: &mut Context<D>, at: Cursor)
    requires { IsLiveNode ctx.old.program (node_of at) }
    ensures erased { LocatesOnArriving ctx.old.program ctx.new.program at D.nowhere }
    ensures types { ctx.new.types ≡ ctx.old.types }
{
    match at {
        Cursor::Arriving(node) => erase_at(ctx, node),
        Cursor::Leaving(_) => {}
    }
}

/// One turn of a walk of `root`, which takes the location away where it arrives.
fn erase_and_go<D: DialectTables>(ctx: &mut Context<D>, root: IRNode, at: Cursor) -> Option<Cursor>
    requires live { IsLiveNode ctx.old.program (node_of at) }
    requires inside { StandsInside ctx.old.program root (node_of at) }
    ensures erased { LocatesOnArriving ctx.old.program ctx.new.program at D.nowhere }
    ensures turn { IsTurn ctx.new.program (preset PreOrder Forward) root at Advance result }
    ensures types { ctx.new.types ≡ ctx.old.types }
{
    erase_on_arriving(ctx, at);
    go_on(
        ctx.program(),
        &WALKCONFIG_PREORDER_FORWARD,
        root,
        at,
        WalkContinue::Advance,
    )
}

/// Takes the location away from a node and from all blocks and operations inside it, one turn of a walk after the other.
fn erase_inside<D: DialectTables>(ctx: &mut Context<D>, root: IRNode)
    requires { IsLiveNode ctx.old.program root }
    ensures erased { LocatesInside ctx.old.program ctx.new.program root D.nowhere }
    ensures types { ctx.new.types ≡ ctx.old.types }
{
    know_context(ctx, root);
    let mut at = Some(Cursor::Arriving(root));
    'turns: while let Some(cursor) = at {
        at = erase_and_go(ctx, root, cursor);
    }
}

/// Takes the location away from an operation and from all blocks and operations inside it: they come from no source from
/// then on. It goes over each of them once, asks for no memory, and doesn't recur however deep they stand.
pub fn erase_locations<D: DialectTables>(ctx: &mut Context<D>, op: Ptr<Operation>)
    requires { IsSome (operation_at ctx.old.program op) }
    ensures erased { LocatesInside ctx.old.program ctx.new.program (OperationNode op) D.nowhere }
    // So none of them has another location any more.
    ensures operations { (p : Ptr Operation) → StandsInside ctx.old.program (OperationNode op) (OperationNode p)
        → location_at ctx.new.program p ≡ Some D.nowhere }
    ensures blocks { (b : Ptr BasicBlock) → StandsInside ctx.old.program (OperationNode op) (BlockNode b)
        → block_location_at ctx.new.program b ≡ Some D.nowhere }
    ensures types { ctx.new.types ≡ ctx.old.types }
{
    erase_inside(ctx, IRNode::Operation(op));
}
