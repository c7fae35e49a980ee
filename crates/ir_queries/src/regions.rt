//! How the blocks of a region are ordered.
ghost use Rattle.std.specs.Prelude.{◌≡◌, ◌↔◌, false, IsSome};
ghost use Rattle.ir_program.specs.declared.handles.Ptr.{Ptr};
ghost use Rattle.ir_program.specs.declared.handles.Region.{Region};
ghost use Rattle.ir_program.specs.Program.{region_at};
ghost use Rattle.ir_queries.specs.Edges.{IsGraphRegion};

use ir_context::{Context, OperationCalls};
use ir_names::{OpInterface, RegionKind};
use ir_program::{Ptr, Region};
use ir_types::DialectTables;

/// How the blocks of a region are ordered.
pub trait RegionOrder {
    /// The handle of the region.
    ghost region: { Self → Ptr Region };

    /// Whether values in the region are defined before they are used: not so exactly where its operation
    /// says that the region is a graph.
    fn has_ssa_dominance<D: DialectTables>(self, ctx: &Context<D>) -> bool
        requires { IsSome (region_at ctx.now.program (region self)) }
        ensures { (result ≡ false) ↔ IsGraphRegion D.op_has D.order ctx.now.program (region self) };
}

impl RegionOrder for Ptr<Region> {
    ghost region = { λ r. r };

    fn has_ssa_dominance<D: DialectTables>(self, ctx: &Context<D>) -> bool {
        ctx.program().know_lists();
        let op = ctx.program().parent_operation(self);
        let kind = op.kind(ctx);
        if !D::op_implements(kind, OpInterface::RegionKind) {
            return true;
        }
        let index = ctx.program().region_index(self);
        D::region_kind(kind, index) != RegionKind::Graph
    }
}
