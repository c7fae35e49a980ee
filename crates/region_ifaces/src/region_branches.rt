//! Branches into the regions of an operation.
ghost use Rattle.std.specs.Prelude.{◌≡◌, ◌↔◌, ◌<◌, List, IsOk, IsSome, Some, length, slice_get};
ghost use Rattle.ir_names.specs.declared.interfaces.OpInterface.TheVariants as interface;
ghost use Rattle.ir_program.specs.Program.{operation_at};
ghost use Rattle.ir_program.specs.declared.handles.Operation.{Operation as AnOperation};
ghost use Rattle.ir_program.specs.declared.handles.Ptr.{Ptr as Handle};
ghost use Rattle.ir_context.specs.Views.{ContextView};
ghost use Rattle.ir_context.specs.declared.notes.BlockNotes.{BlockNotes as Noted};
ghost use Rattle.ir_context.specs.declared.notes.OperationData.{OperationData as Carried};
ghost use Rattle.ir_types.specs.Views.{TypesView};
ghost use Rattle.region_ifaces.specs.RegionEdges.{AreRegionEdges, HandsOn, IsPoint, IsRegionEdge, IsSuccessor};

use crate::edge_tests::{
    has_receivers, is_point, is_successor, is_within, operation_of, types_fit,
};
use crate::region_edges::RegionEdge;
use ir_context::{Context, OperandCalls};
use ir_names::OpInterface;
use ir_program::{Operation, Ptr};
use ir_queries::OpInterfaceMarker;
use ir_types::DialectTables;
use thiserror::Error;

/// Why an edge into the regions of an operation, or out of them, isn't one.
#[derive(Clone, Copy, Debug, PartialEq, Eq, Error)]
pub enum RegionBranchOpInterfaceVerifyErr {
    /// It leads to a region of another operation.
    #[error("edge {0} leads to a region that isn't the operation's")]
    ForeignRegionSuccessor(usize),
    /// It leads from what is no terminator of a block in the operation's regions.
    #[error("edge {0} leads from what is no terminator in the operation's regions")]
    InvalidTerminator(usize),
    /// It hands on operands that aren't there.
    #[error("edge {0} hands on operands that aren't there")]
    OperandNotAtBranchPoint(usize),
    /// What is given its operands isn't there, isn't as many, or has other types.
    #[error("edge {0} hands on other operands than are taken")]
    ReceiverMismatch(usize),
}

/// A dialect that says which edges lead into the regions of its operations, between them, and out of them.
pub trait RegionBranches: DialectTables + Sized {
    ghost use Rattle.region_ifaces.specs.declared.region_edges.RegionEdge.{RegionEdge};

    /// The edges of an operation. Only branches into regions are asked.
    ghost edges: { ContextView
        (Carried Self Self.TypeKind Self.AttrKind Self.TypeBody Self.Saved Self.Location Self.OpKind Self.Attr Self.TypeKey)
        (Noted Self Self.TypeKind Self.AttrKind Self.TypeBody Self.Saved Self.Location Self.OpKind Self.Attr Self.TypeKey)
        (TypesView Self.TypeKey Self.TypeBody Self.Saved) → Handle AnOperation → List RegionEdge };

    /// How many edges there are.
    fn num_region_edges(op: Ptr<Operation>, ctx: &Context<Self>) -> usize
        requires { IsSome (operation_at ctx.now.program op) }
        ensures { result ≡ length (edges ctx.now op) };

    /// The edge with this number.
    fn region_edge(op: Ptr<Operation>, ctx: &Context<Self>, i: usize) -> RegionEdge
        requires live { IsSome (operation_at ctx.now.program op) }
        requires within { i < length (edges ctx.now op) }
        ensures { slice_get (edges ctx.now op) i ≡ Some result };
}

/// Whether the edge with this number, whose ends are there, hands on what is taken.
fn expect_handed<D: DialectTables>(
    op: Ptr<Operation>,
    ctx: &Context<D>,
    i: usize,
    edge: RegionEdge,
) -> Result<(), RegionBranchOpInterfaceVerifyErr>
    requires live { IsSome (operation_at ctx.now.program op) }
    requires target { IsSuccessor ctx.now.program op edge.target }
    requires source { IsPoint D.op_has ctx.now.program op edge.source }
    ensures { IsOk result ↔ HandsOn ctx.now.program op edge }
{
    let from = operation_of(op, edge.source);
    if !is_within(edge.operands, from.get_num_operands(ctx)) {
        return Err(RegionBranchOpInterfaceVerifyErr::OperandNotAtBranchPoint(i));
    }
    if !has_receivers(op, ctx, edge) {
        return Err(RegionBranchOpInterfaceVerifyErr::ReceiverMismatch(i));
    }
    if types_fit(op, ctx, edge, from) {
        return Ok(());
    }
    Err(RegionBranchOpInterfaceVerifyErr::ReceiverMismatch(i))
}

/// Whether this is an edge of the operation.
fn expect_edge<D: DialectTables>(
    op: Ptr<Operation>,
    ctx: &Context<D>,
    i: usize,
    edge: RegionEdge,
) -> Result<(), RegionBranchOpInterfaceVerifyErr>
    requires { IsSome (operation_at ctx.now.program op) }
    ensures { IsOk result ↔ IsRegionEdge D.op_has ctx.now.program op edge }
{
    if !is_successor(op, ctx, edge.target) {
        return Err(RegionBranchOpInterfaceVerifyErr::ForeignRegionSuccessor(i));
    }
    if !is_point(op, ctx, edge.source) {
        return Err(RegionBranchOpInterfaceVerifyErr::InvalidTerminator(i));
    }
    expect_handed(op, ctx, i, edge)
}

/// The operation hands on operands to its regions, and gets results from them.
pub struct RegionBranchOpInterface;

impl OpInterfaceMarker for RegionBranchOpInterface {
    ghost INTERFACE = { interface.RegionBranch };

    const INTERFACE: OpInterface = OpInterface::RegionBranch;
}

impl RegionBranchOpInterface {
    /// Whether each edge leads from the operation or a terminator in its regions to a region of the operation or behind it,
    /// and hands on operands that are there, of the types of what is given them.
    pub fn verify<D: RegionBranches>(
        op: Ptr<Operation>,
        ctx: &Context<D>,
    ) -> Result<(), RegionBranchOpInterfaceVerifyErr>
        requires { IsSome (operation_at ctx.now.program op) }
        ensures { IsOk result ↔ AreRegionEdges D.op_has ctx.now.program op (D.edges ctx.now op) }
    {
        for i in 0..D::num_region_edges(op, ctx) {
            match expect_edge(op, ctx, i, D::region_edge(op, ctx, i)) {
                Ok(()) => {}
                Err(fault) => return Err(fault),
            }
        }
        Ok(())
    }
}
