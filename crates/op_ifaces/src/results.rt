//! Interfaces that say how many results an operation has.
ghost use Rattle.std.specs.Prelude.{◌≡◌, ◌≤◌, ◌<◌, IsSome, Some};
ghost use Rattle.ir_names.specs.declared.interfaces.OpInterface.TheVariants as interface;
ghost use Rattle.ir_program.specs.Program.{operation_at, result_count, results_at, value_in};
ghost use Rattle.op_ifaces.specs.Rows.{row_type};
ghost use Rattle.op_ifaces.specs.Rules.{AcceptsExactly};
ghost use Rattle.op_ifaces.specs.declared.rows.Row.TheVariants.{Results};

use crate::rows::{Row, row_type};
use ir_context::{ResultCalls, TypeTable, TypedProgram};
use ir_names::{OpInterface, TypeHandle};
use ir_program::{Operation, Ptr, Value};
use ir_queries::OpInterfaceMarker;
use thiserror::Error;

/// There are not as many results as wanted.
#[derive(Clone, Copy, Debug, PartialEq, Eq, Error)]
#[error("expected {0} results, but found {1}")]
pub struct NResultsVerifyErr(pub usize, pub usize);

/// There are more results than wanted.
#[derive(Clone, Copy, Debug, PartialEq, Eq, Error)]
#[error("expected at most {0} results, but found {1}")]
pub struct AtMostNResultsVerifyErr(pub usize, pub usize);

/// There are fewer results than wanted.
#[derive(Clone, Copy, Debug, PartialEq, Eq, Error)]
#[error("expected at least {0} results, but found {1}")]
pub struct AtLeastNResultsVerifyErr(pub usize, pub usize);

/// Whether the operation has exactly `n` results.
pub(crate) fn expect_results<O, B, T: TypeTable>(
    n: usize,
    op: Ptr<Operation>,
    ctx: &TypedProgram<O, B, T>,
) -> Result<(), NResultsVerifyErr>
    requires { IsSome (operation_at ctx.now.program op) }
    ensures { AcceptsExactly result (result_count ctx.now.program op ≡ n) }
{
    let found = op.get_num_results(ctx);
    if found == n {
        return Ok(());
    }
    Err(NResultsVerifyErr(n, found))
}

/// Whether the operation has at most `n` results.
pub(crate) fn expect_at_most_results<O, B, T: TypeTable>(
    n: usize,
    op: Ptr<Operation>,
    ctx: &TypedProgram<O, B, T>,
) -> Result<(), AtMostNResultsVerifyErr>
    requires { IsSome (operation_at ctx.now.program op) }
    ensures { AcceptsExactly result (result_count ctx.now.program op ≤ n) }
{
    let found = op.get_num_results(ctx);
    if found <= n {
        return Ok(());
    }
    Err(AtMostNResultsVerifyErr(n, found))
}

/// Whether the operation has at least `n` results.
pub(crate) fn expect_at_least_results<O, B, T: TypeTable>(
    n: usize,
    op: Ptr<Operation>,
    ctx: &TypedProgram<O, B, T>,
) -> Result<(), AtLeastNResultsVerifyErr>
    requires { IsSome (operation_at ctx.now.program op) }
    ensures { AcceptsExactly result (n ≤ result_count ctx.now.program op) }
{
    let found = op.get_num_results(ctx);
    if found >= n {
        return Ok(());
    }
    Err(AtLeastNResultsVerifyErr(n, found))
}

/// The operation has exactly `N` results.
pub struct NResultsInterface<const N: usize>;

impl<const N: usize> OpInterfaceMarker for NResultsInterface<N> {
    ghost INTERFACE = { interface.NResults N };

    const INTERFACE: OpInterface = OpInterface::NResults(N);
}

impl<const N: usize> NResultsInterface<N> {
    /// Whether the operation has so many.
    pub fn verify<O, B, T: TypeTable>(
        op: Ptr<Operation>,
        ctx: &TypedProgram<O, B, T>,
    ) -> Result<(), NResultsVerifyErr>
        requires { IsSome (operation_at ctx.now.program op) }
        ensures { AcceptsExactly result (result_count ctx.now.program op ≡ N) }
    {
        expect_results(N, op, ctx)
    }

    /// The result at an index.
    pub fn get_result_i<O, B, T: TypeTable>(
        op: Ptr<Operation>,
        ctx: &TypedProgram<O, B, T>,
        i: usize,
    ) -> Value
        requires operation { IsSome (operation_at ctx.now.program op) }
        requires rule { result_count ctx.now.program op ≡ N }
        requires within { i < N }
        ensures { value_in (results_at ctx.now.program op) i ≡ Some result }
    {
        op.get_result(ctx, i)
    }

    /// The type of the result at an index.
    pub fn result_type_i<O, B, T: TypeTable>(
        op: Ptr<Operation>,
        ctx: &TypedProgram<O, B, T>,
        i: usize,
    ) -> TypeHandle
        requires operation { IsSome (operation_at ctx.now.program op) }
        requires rule { result_count ctx.now.program op ≡ N }
        requires within { i < N }
        ensures { row_type ctx.now.program op Results i ≡ Some result }
    {
        row_type(Row::Results, op, ctx, i)
    }
}

/// The operation has at most `N` results.
pub struct AtMostNResultsInterface<const N: usize>;

impl<const N: usize> OpInterfaceMarker for AtMostNResultsInterface<N> {
    ghost INTERFACE = { interface.AtMostNResults N };

    const INTERFACE: OpInterface = OpInterface::AtMostNResults(N);
}

impl<const N: usize> AtMostNResultsInterface<N> {
    /// Whether the operation has at most so many.
    pub fn verify<O, B, T: TypeTable>(
        op: Ptr<Operation>,
        ctx: &TypedProgram<O, B, T>,
    ) -> Result<(), AtMostNResultsVerifyErr>
        requires { IsSome (operation_at ctx.now.program op) }
        ensures { AcceptsExactly result (result_count ctx.now.program op ≤ N) }
    {
        expect_at_most_results(N, op, ctx)
    }
}

/// The operation has at least `N` results.
pub struct AtLeastNResultsInterface<const N: usize>;

impl<const N: usize> OpInterfaceMarker for AtLeastNResultsInterface<N> {
    ghost INTERFACE = { interface.AtLeastNResults N };

    const INTERFACE: OpInterface = OpInterface::AtLeastNResults(N);
}

impl<const N: usize> AtLeastNResultsInterface<N> {
    /// Whether the operation has at least so many.
    pub fn verify<O, B, T: TypeTable>(
        op: Ptr<Operation>,
        ctx: &TypedProgram<O, B, T>,
    ) -> Result<(), AtLeastNResultsVerifyErr>
        requires { IsSome (operation_at ctx.now.program op) }
        ensures { AcceptsExactly result (N ≤ result_count ctx.now.program op) }
    {
        expect_at_least_results(N, op, ctx)
    }

    /// The result at an index of the first `N`, which are there.
    pub fn get_result_i<O, B, T: TypeTable>(
        op: Ptr<Operation>,
        ctx: &TypedProgram<O, B, T>,
        i: usize,
    ) -> Value
        requires operation { IsSome (operation_at ctx.now.program op) }
        requires rule { N ≤ result_count ctx.now.program op }
        requires within { i < N }
        ensures { value_in (results_at ctx.now.program op) i ≡ Some result }
    {
        op.get_result(ctx, i)
    }

    /// The type of the result at an index of the first `N`, which are there.
    pub fn result_type_i<O, B, T: TypeTable>(
        op: Ptr<Operation>,
        ctx: &TypedProgram<O, B, T>,
        i: usize,
    ) -> TypeHandle
        requires operation { IsSome (operation_at ctx.now.program op) }
        requires rule { N ≤ result_count ctx.now.program op }
        requires within { i < N }
        ensures { row_type ctx.now.program op Results i ≡ Some result }
    {
        row_type(Row::Results, op, ctx, i)
    }
}

/// The operation has at most one result.
pub struct OptionalResultInterface;

impl OpInterfaceMarker for OptionalResultInterface {
    ghost INTERFACE = { interface.OptionalResult };

    const INTERFACE: OpInterface = OpInterface::OptionalResult;
}

impl OptionalResultInterface {
    /// Whether the operation has at most one.
    pub fn verify<O, B, T: TypeTable>(
        op: Ptr<Operation>,
        ctx: &TypedProgram<O, B, T>,
    ) -> Result<(), AtMostNResultsVerifyErr>
        requires { IsSome (operation_at ctx.now.program op) }
        ensures { AcceptsExactly result (result_count ctx.now.program op ≤ 1) }
    {
        expect_at_most_results(1, op, ctx)
    }

    /// Its result, where it has one.
    pub fn get_result_opt<O, B, T: TypeTable>(
        op: Ptr<Operation>,
        ctx: &TypedProgram<O, B, T>,
    ) -> Option<Value>
        requires operation { IsSome (operation_at ctx.now.program op) }
        requires rule { result_count ctx.now.program op ≤ 1 }
        ensures { value_in (results_at ctx.now.program op) 0 ≡ result }
    {
        if op.get_num_results(ctx) == 0 {
            return None;
        }
        Some(op.get_result(ctx, 0))
    }
}

/// The operation has exactly one result.
pub struct OneResultInterface;

impl OpInterfaceMarker for OneResultInterface {
    ghost INTERFACE = { interface.OneResult };

    const INTERFACE: OpInterface = OpInterface::OneResult;
}

impl OneResultInterface {
    /// Whether the operation has exactly one.
    pub fn verify<O, B, T: TypeTable>(
        op: Ptr<Operation>,
        ctx: &TypedProgram<O, B, T>,
    ) -> Result<(), NResultsVerifyErr>
        requires { IsSome (operation_at ctx.now.program op) }
        ensures { AcceptsExactly result (result_count ctx.now.program op ≡ 1) }
    {
        expect_results(1, op, ctx)
    }

    /// Its result.
    pub fn get_result<O, B, T: TypeTable>(op: Ptr<Operation>, ctx: &TypedProgram<O, B, T>) -> Value
        requires operation { IsSome (operation_at ctx.now.program op) }
        requires rule { result_count ctx.now.program op ≡ 1 }
        ensures { value_in (results_at ctx.now.program op) 0 ≡ Some result }
    {
        op.get_result(ctx, 0)
    }

    /// The type of its result.
    pub fn result_type<O, B, T: TypeTable>(
        op: Ptr<Operation>,
        ctx: &TypedProgram<O, B, T>,
    ) -> TypeHandle
        requires operation { IsSome (operation_at ctx.now.program op) }
        requires rule { result_count ctx.now.program op ≡ 1 }
        ensures { row_type ctx.now.program op Results 0 ≡ Some result }
    {
        row_type(Row::Results, op, ctx, 0)
    }
}
