//! Where verifiers take the edges of branches into regions from.
ghost use Rattle.std.specs.Prelude.{◌↔◌, List, IsOk, IsSome};
ghost use Rattle.ir_core.specs.verification.Dialect.{DialectContext};
ghost use Rattle.ir_program.specs.Program.{operation_at};
ghost use Rattle.ir_program.specs.declared.handles.Operation.{Operation as AnOperation};
ghost use Rattle.ir_program.specs.declared.handles.Ptr.{Ptr as Handle};
ghost use Rattle.region_ifaces.specs.RegionEdges.{AreRegionEdges};
ghost use Rattle.region_ifaces.specs.declared.region_edges.RegionEdge.{RegionEdge};

use ir_context::Context;
use ir_program::{Operation, Ptr};
use ir_types::DialectTables;
use region_ifaces::{RegionBranchOpInterface, RegionBranchOpInterfaceVerifyErr, RegionBranches};

/// A verifier of branches into regions, which knows the edges of each operation.
pub trait RegionBranchVerifier<D: DialectTables> {
    /// The edges into the regions of an operation, between them, and out of them.
    ghost edges: { DialectContext D D.TypeKind D.AttrKind D.TypeBody D.Saved D.Location D.OpKind D.Attr D.TypeKey
        → Handle AnOperation → List RegionEdge };

    /// Whether each edge leads from the operation or a terminator in its regions to a region of the operation or behind it, and
    /// hands on operands that are there, of the types of what is given them.
    ///
    /// # Errors
    /// Refused where some edge isn't so.
    fn verify_edges(
        op: Ptr<Operation>,
        ctx: &Context<D>,
    ) -> Result<(), RegionBranchOpInterfaceVerifyErr>
        requires { IsSome (operation_at ctx.now.program op) }
        ensures { IsOk result ↔ AreRegionEdges D.op_has ctx.now.program op (edges ctx.now op) };
}

/// No operation has edges into its regions: for dialects without branches into regions.
#[derive(Clone, Copy, Debug, PartialEq, Eq)]
pub struct NoRegionBranches;

impl<D: DialectTables> RegionBranchVerifier<D> for NoRegionBranches {
    ghost use Rattle.std.specs.Prelude.{[]};

    ghost edges = { λ _ _. [] };

    fn verify_edges(
        _op: Ptr<Operation>,
        _ctx: &Context<D>,
    ) -> Result<(), RegionBranchOpInterfaceVerifyErr> {
        Ok(())
    }
}

/// Operations have the edges that their dialect says.
#[derive(Clone, Copy, Debug, PartialEq, Eq)]
pub struct RegionBranchesOfDialect;

impl<D: RegionBranches> RegionBranchVerifier<D> for RegionBranchesOfDialect {
    ghost edges = { D.edges };

    fn verify_edges(
        op: Ptr<Operation>,
        ctx: &Context<D>,
    ) -> Result<(), RegionBranchOpInterfaceVerifyErr> {
        RegionBranchOpInterface::verify(op, ctx)
    }
}
