//! Interfaces that say how many regions an operation has.
ghost use Rattle.std.specs.Prelude.{◌≡◌, ◌≤◌, ◌<◌, IsSome, Some, length, slice_get};
ghost use Rattle.ir_names.specs.declared.interfaces.OpInterface.TheVariants as interface;
ghost use Rattle.ir_program.specs.Program.{operation_at};
ghost use Rattle.ir_program.specs.Lists.{StandsInOperation, regions_in};
ghost use Rattle.op_ifaces.specs.Rules.{AcceptsExactly};

use ir_context::{OperationCalls, TypeTable, TypedProgram};
use ir_names::OpInterface;
use ir_program::{Operation, Ptr, Region};
use ir_queries::OpInterfaceMarker;
use thiserror::Error;

/// There are not as many regions as wanted.
#[derive(Clone, Copy, Debug, PartialEq, Eq, Error)]
#[error("expected {0} regions, but found {1}")]
pub struct NRegionsVerifyErr(pub usize, pub usize);

/// There are more regions than wanted.
#[derive(Clone, Copy, Debug, PartialEq, Eq, Error)]
#[error("expected at most {0} regions, but found {1}")]
pub struct AtMostNRegionVerifyErr(pub usize, pub usize);

/// Whether the operation has exactly `n` regions.
pub(crate) fn expect_regions<O, B, T: TypeTable>(
    n: usize,
    op: Ptr<Operation>,
    ctx: &TypedProgram<O, B, T>,
) -> Result<(), NRegionsVerifyErr>
    requires { IsSome (operation_at ctx.now.program op) }
    ensures { AcceptsExactly result (length (regions_in ctx.now.program op) ≡ n) }
{
    let found = op.num_regions(ctx);
    if found == n {
        return Ok(());
    }
    Err(NRegionsVerifyErr(n, found))
}

/// Whether the operation has at most `n` regions.
pub(crate) fn expect_at_most_regions<O, B, T: TypeTable>(
    n: usize,
    op: Ptr<Operation>,
    ctx: &TypedProgram<O, B, T>,
) -> Result<(), AtMostNRegionVerifyErr>
    requires { IsSome (operation_at ctx.now.program op) }
    ensures { AcceptsExactly result (length (regions_in ctx.now.program op) ≤ n) }
{
    let found = op.num_regions(ctx);
    if found <= n {
        return Ok(());
    }
    Err(AtMostNRegionVerifyErr(n, found))
}

/// The operation has exactly `N` regions.
pub struct NRegionsInterface<const N: usize>;

impl<const N: usize> OpInterfaceMarker for NRegionsInterface<N> {
    ghost INTERFACE = { interface.NRegions N };

    const INTERFACE: OpInterface = OpInterface::NRegions(N);
}

impl<const N: usize> NRegionsInterface<N> {
    /// Whether the operation has so many.
    pub fn verify<O, B, T: TypeTable>(
        op: Ptr<Operation>,
        ctx: &TypedProgram<O, B, T>,
    ) -> Result<(), NRegionsVerifyErr>
        requires { IsSome (operation_at ctx.now.program op) }
        ensures { AcceptsExactly result (length (regions_in ctx.now.program op) ≡ N) }
    {
        expect_regions(N, op, ctx)
    }

    /// The region at an index.
    pub fn get_region_i<O, B, T: TypeTable>(
        op: Ptr<Operation>,
        ctx: &TypedProgram<O, B, T>,
        i: usize,
    ) -> Ptr<Region>
        requires operation { IsSome (operation_at ctx.now.program op) }
        requires rule { length (regions_in ctx.now.program op) ≡ N }
        requires within { i < N }
        ensures exact { slice_get (regions_in ctx.now.program op) i ≡ Some result }
        ensures stands { StandsInOperation ctx.now.program result op }
    {
        op.get_region(ctx, i)
    }
}

/// The operation has exactly one region.
pub struct OneRegionInterface;

impl OpInterfaceMarker for OneRegionInterface {
    ghost INTERFACE = { interface.OneRegion };

    const INTERFACE: OpInterface = OpInterface::OneRegion;
}

impl OneRegionInterface {
    /// Whether the operation has exactly one.
    pub fn verify<O, B, T: TypeTable>(
        op: Ptr<Operation>,
        ctx: &TypedProgram<O, B, T>,
    ) -> Result<(), NRegionsVerifyErr>
        requires { IsSome (operation_at ctx.now.program op) }
        ensures { AcceptsExactly result (length (regions_in ctx.now.program op) ≡ 1) }
    {
        expect_regions(1, op, ctx)
    }

    /// Its region.
    pub fn get_region<O, B, T: TypeTable>(
        op: Ptr<Operation>,
        ctx: &TypedProgram<O, B, T>,
    ) -> Ptr<Region>
        requires operation { IsSome (operation_at ctx.now.program op) }
        requires rule { length (regions_in ctx.now.program op) ≡ 1 }
        ensures exact { slice_get (regions_in ctx.now.program op) 0 ≡ Some result }
        ensures stands { StandsInOperation ctx.now.program result op }
    {
        op.get_region(ctx, 0)
    }
}

/// The operation has at most `N` regions.
pub struct AtMostNRegionsInterface<const N: usize>;

impl<const N: usize> OpInterfaceMarker for AtMostNRegionsInterface<N> {
    ghost INTERFACE = { interface.AtMostNRegions N };

    const INTERFACE: OpInterface = OpInterface::AtMostNRegions(N);
}

impl<const N: usize> AtMostNRegionsInterface<N> {
    /// Whether the operation has at most so many.
    pub fn verify<O, B, T: TypeTable>(
        op: Ptr<Operation>,
        ctx: &TypedProgram<O, B, T>,
    ) -> Result<(), AtMostNRegionVerifyErr>
        requires { IsSome (operation_at ctx.now.program op) }
        ensures { AcceptsExactly result (length (regions_in ctx.now.program op) ≤ N) }
    {
        expect_at_most_regions(N, op, ctx)
    }
}

/// The operation has at most one region.
pub struct AtMostOneRegionInterface;

impl OpInterfaceMarker for AtMostOneRegionInterface {
    ghost INTERFACE = { interface.AtMostOneRegion };

    const INTERFACE: OpInterface = OpInterface::AtMostOneRegion;
}

impl AtMostOneRegionInterface {
    /// Whether the operation has at most one.
    pub fn verify<O, B, T: TypeTable>(
        op: Ptr<Operation>,
        ctx: &TypedProgram<O, B, T>,
    ) -> Result<(), AtMostNRegionVerifyErr>
        requires { IsSome (operation_at ctx.now.program op) }
        ensures { AcceptsExactly result (length (regions_in ctx.now.program op) ≤ 1) }
    {
        expect_at_most_regions(1, op, ctx)
    }

    /// Its region, where it has one.
    pub fn get_region<O, B, T: TypeTable>(
        op: Ptr<Operation>,
        ctx: &TypedProgram<O, B, T>,
    ) -> Option<Ptr<Region>>
        requires operation { IsSome (operation_at ctx.now.program op) }
        requires rule { length (regions_in ctx.now.program op) ≤ 1 }
        ensures { slice_get (regions_in ctx.now.program op) 0 ≡ result }
    {
        if op.num_regions(ctx) == 0 {
            return None;
        }
        Some(op.get_region(ctx, 0))
    }
}
