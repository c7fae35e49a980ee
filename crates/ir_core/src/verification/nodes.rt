//! All that stands inside an entity of a context.
ghost use Rattle.std.specs.Prelude.{◌≡◌};
ghost use Rattle.ir_program.specs.Lists.{IsLiveNode};
ghost use Rattle.ir_program.specs.Preorder.{nodes_inside, AreInside};

use ir_context::{BlockNotes, Context, OperationData};
use ir_program::{IRNode, NodesInside};
use ir_types::DialectTables;

/// An entity and all that stands in it, however far down: each before what stands in it, and what stands in it from
/// first to last.
pub(crate) fn nodes_inside<D: DialectTables>(
    outer: IRNode,
    ctx: &Context<D>,
) -> NodesInside<'_, OperationData<D>, BlockNotes<D>>
    requires { IsLiveNode ctx.now.program outer }
    ensures list { result ≡ nodes_inside ctx.now.program outer }
    ensures inside { AreInside ctx.now.program outer (nodes_inside ctx.now.program outer) }
{
    ctx.program().nodes_inside(outer)
}

/// Tells what the walk over an entity is. It does nothing.
pub(crate) fn know_inside<D: DialectTables>(outer: IRNode, ctx: &Context<D>)
    requires { IsLiveNode ctx.now.program outer }
    ensures { AreInside ctx.now.program outer (nodes_inside ctx.now.program outer) }
{
    let _nodes = nodes_inside(outer, ctx);
}
