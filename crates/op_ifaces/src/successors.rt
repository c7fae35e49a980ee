//! Interfaces that say how many successors an operation has.
ghost use Rattle.std.specs.Prelude.{◌≡◌, ◌<◌, IsSome, Some, length, slice_get};
ghost use Rattle.ir_names.specs.declared.interfaces.OpInterface.TheVariants as interface;
ghost use Rattle.ir_program.specs.Program.{block_at, operation_at};
ghost use Rattle.ir_program.specs.Rows.{successors_at};
ghost use Rattle.op_ifaces.specs.Rules.{AcceptsExactly};

use ir_context::{SuccessorCalls, TypeTable, TypedProgram};
use ir_names::OpInterface;
use ir_program::{BasicBlock, Operation, Ptr};
use ir_queries::OpInterfaceMarker;
use thiserror::Error;

/// There are not as many successors as wanted.
#[derive(Clone, Copy, Debug, PartialEq, Eq, Error)]
#[error("expected {0} successors, but found {1}")]
pub struct NSuccsVerifyErr(pub usize, pub usize);

/// Whether the operation has exactly `n` successors.
pub(crate) fn expect_successors<O, B, T: TypeTable>(
    n: usize,
    op: Ptr<Operation>,
    ctx: &TypedProgram<O, B, T>,
) -> Result<(), NSuccsVerifyErr>
    requires { IsSome (operation_at ctx.now.program op) }
    ensures { AcceptsExactly result (length (successors_at ctx.now.program op) ≡ n) }
{
    let found = op.get_num_successors(ctx);
    if found == n {
        return Ok(());
    }
    Err(NSuccsVerifyErr(n, found))
}

/// The operation has exactly `N` successors.
pub struct NSuccsInterface<const N: usize>;

impl<const N: usize> OpInterfaceMarker for NSuccsInterface<N> {
    ghost INTERFACE = { interface.NSuccs N };

    const INTERFACE: OpInterface = OpInterface::NSuccs(N);
}

impl<const N: usize> NSuccsInterface<N> {
    /// Whether the operation has so many.
    pub fn verify<O, B, T: TypeTable>(
        op: Ptr<Operation>,
        ctx: &TypedProgram<O, B, T>,
    ) -> Result<(), NSuccsVerifyErr>
        requires { IsSome (operation_at ctx.now.program op) }
        ensures { AcceptsExactly result (length (successors_at ctx.now.program op) ≡ N) }
    {
        expect_successors(N, op, ctx)
    }

    /// The successor at an index.
    pub fn get_successor_i<O, B, T: TypeTable>(
        op: Ptr<Operation>,
        ctx: &TypedProgram<O, B, T>,
        i: usize,
    ) -> Ptr<BasicBlock>
        requires rule { length (successors_at ctx.now.program op) ≡ N }
        requires within { i < N }
        ensures exact { slice_get (successors_at ctx.now.program op) i ≡ Some result }
        ensures live { IsSome (block_at ctx.now.program result) }
    {
        op.get_successor(ctx, i)
    }
}

/// The operation has exactly one successor.
pub struct OneSuccInterface;

impl OpInterfaceMarker for OneSuccInterface {
    ghost INTERFACE = { interface.OneSucc };

    const INTERFACE: OpInterface = OpInterface::OneSucc;
}

impl OneSuccInterface {
    /// Whether the operation has exactly one.
    pub fn verify<O, B, T: TypeTable>(
        op: Ptr<Operation>,
        ctx: &TypedProgram<O, B, T>,
    ) -> Result<(), NSuccsVerifyErr>
        requires { IsSome (operation_at ctx.now.program op) }
        ensures { AcceptsExactly result (length (successors_at ctx.now.program op) ≡ 1) }
    {
        expect_successors(1, op, ctx)
    }

    /// Its successor.
    pub fn get_successor<O, B, T: TypeTable>(
        op: Ptr<Operation>,
        ctx: &TypedProgram<O, B, T>,
    ) -> Ptr<BasicBlock>
        requires { length (successors_at ctx.now.program op) ≡ 1 }
        ensures exact { slice_get (successors_at ctx.now.program op) 0 ≡ Some result }
        ensures live { IsSome (block_at ctx.now.program result) }
    {
        op.get_successor(ctx, 0)
    }
}
