//! Interfaces that say how many operands an operation has.
ghost use Rattle.std.specs.Prelude.{◌≡◌, ◌≤◌, ◌<◌, IsSome, Some, length, slice_get};
ghost use Rattle.ir_names.specs.declared.interfaces.OpInterface.TheVariants as interface;
ghost use Rattle.ir_program.specs.Program.{operation_at};
ghost use Rattle.ir_program.specs.Rows.{operands_at};
ghost use Rattle.op_ifaces.specs.Rows.{row_type};
ghost use Rattle.op_ifaces.specs.Rules.{AcceptsExactly};
ghost use Rattle.op_ifaces.specs.declared.rows.Row.TheVariants.{Operands};

use crate::rows::{Row, row_type};
use ir_context::{OperandCalls, TypeTable, TypedProgram};
use ir_names::{OpInterface, TypeHandle};
use ir_program::{Operation, Ptr, Value};
use ir_queries::OpInterfaceMarker;
use thiserror::Error;

/// There are not as many operands as wanted.
#[derive(Clone, Copy, Debug, PartialEq, Eq, Error)]
#[error("expected {0} operands, but found {1}")]
pub struct NOpdsVerifyErr(pub usize, pub usize);

/// There are more operands than wanted.
#[derive(Clone, Copy, Debug, PartialEq, Eq, Error)]
#[error("expected at most {0} operands, but found {1}")]
pub struct AtMostNOpdsVerifyErr(pub usize, pub usize);

/// There are fewer operands than wanted.
#[derive(Clone, Copy, Debug, PartialEq, Eq, Error)]
#[error("expected at least {0} operands, but found {1}")]
pub struct AtLeastNOpdsVerifyErr(pub usize, pub usize);

/// Whether the operation has exactly `n` operands.
pub(crate) fn expect_operands<O, B, T: TypeTable>(
    n: usize,
    op: Ptr<Operation>,
    ctx: &TypedProgram<O, B, T>,
) -> Result<(), NOpdsVerifyErr>
    requires { IsSome (operation_at ctx.now.program op) }
    ensures { AcceptsExactly result (length (operands_at ctx.now.program op) ≡ n) }
{
    let found = op.get_num_operands(ctx);
    if found == n {
        return Ok(());
    }
    Err(NOpdsVerifyErr(n, found))
}

/// Whether the operation has at most `n` operands.
pub(crate) fn expect_at_most_operands<O, B, T: TypeTable>(
    n: usize,
    op: Ptr<Operation>,
    ctx: &TypedProgram<O, B, T>,
) -> Result<(), AtMostNOpdsVerifyErr>
    requires { IsSome (operation_at ctx.now.program op) }
    ensures { AcceptsExactly result (length (operands_at ctx.now.program op) ≤ n) }
{
    let found = op.get_num_operands(ctx);
    if found <= n {
        return Ok(());
    }
    Err(AtMostNOpdsVerifyErr(n, found))
}

/// Whether the operation has at least `n` operands.
pub(crate) fn expect_at_least_operands<O, B, T: TypeTable>(
    n: usize,
    op: Ptr<Operation>,
    ctx: &TypedProgram<O, B, T>,
) -> Result<(), AtLeastNOpdsVerifyErr>
    requires { IsSome (operation_at ctx.now.program op) }
    ensures { AcceptsExactly result (n ≤ length (operands_at ctx.now.program op)) }
{
    let found = op.get_num_operands(ctx);
    if found >= n {
        return Ok(());
    }
    Err(AtLeastNOpdsVerifyErr(n, found))
}

/// The operation has exactly `N` operands.
pub struct NOpdsInterface<const N: usize>;

impl<const N: usize> OpInterfaceMarker for NOpdsInterface<N> {
    ghost INTERFACE = { interface.NOpds N };

    const INTERFACE: OpInterface = OpInterface::NOpds(N);
}

impl<const N: usize> NOpdsInterface<N> {
    /// Whether the operation has so many.
    pub fn verify<O, B, T: TypeTable>(
        op: Ptr<Operation>,
        ctx: &TypedProgram<O, B, T>,
    ) -> Result<(), NOpdsVerifyErr>
        requires { IsSome (operation_at ctx.now.program op) }
        ensures { AcceptsExactly result (length (operands_at ctx.now.program op) ≡ N) }
    {
        expect_operands(N, op, ctx)
    }

    /// The operand at an index.
    pub fn get_operand_i<O, B, T: TypeTable>(
        op: Ptr<Operation>,
        ctx: &TypedProgram<O, B, T>,
        i: usize,
    ) -> Value
        requires operation { IsSome (operation_at ctx.now.program op) }
        requires rule { length (operands_at ctx.now.program op) ≡ N }
        requires within { i < N }
        ensures { slice_get (operands_at ctx.now.program op) i ≡ Some result }
    {
        op.get_operand(ctx, i)
    }

    /// The type of the operand at an index.
    pub fn operand_type_i<O, B, T: TypeTable>(
        op: Ptr<Operation>,
        ctx: &TypedProgram<O, B, T>,
        i: usize,
    ) -> TypeHandle
        requires operation { IsSome (operation_at ctx.now.program op) }
        requires rule { length (operands_at ctx.now.program op) ≡ N }
        requires within { i < N }
        ensures { row_type ctx.now.program op Operands i ≡ Some result }
    {
        row_type(Row::Operands, op, ctx, i)
    }
}

/// The operation has at most `N` operands.
pub struct AtMostNOpdsInterface<const N: usize>;

impl<const N: usize> OpInterfaceMarker for AtMostNOpdsInterface<N> {
    ghost INTERFACE = { interface.AtMostNOpds N };

    const INTERFACE: OpInterface = OpInterface::AtMostNOpds(N);
}

impl<const N: usize> AtMostNOpdsInterface<N> {
    /// Whether the operation has at most so many.
    pub fn verify<O, B, T: TypeTable>(
        op: Ptr<Operation>,
        ctx: &TypedProgram<O, B, T>,
    ) -> Result<(), AtMostNOpdsVerifyErr>
        requires { IsSome (operation_at ctx.now.program op) }
        ensures { AcceptsExactly result (length (operands_at ctx.now.program op) ≤ N) }
    {
        expect_at_most_operands(N, op, ctx)
    }
}

/// The operation has at least `N` operands.
pub struct AtLeastNOpdsInterface<const N: usize>;

impl<const N: usize> OpInterfaceMarker for AtLeastNOpdsInterface<N> {
    ghost INTERFACE = { interface.AtLeastNOpds N };

    const INTERFACE: OpInterface = OpInterface::AtLeastNOpds(N);
}

impl<const N: usize> AtLeastNOpdsInterface<N> {
    /// Whether the operation has at least so many.
    pub fn verify<O, B, T: TypeTable>(
        op: Ptr<Operation>,
        ctx: &TypedProgram<O, B, T>,
    ) -> Result<(), AtLeastNOpdsVerifyErr>
        requires { IsSome (operation_at ctx.now.program op) }
        ensures { AcceptsExactly result (N ≤ length (operands_at ctx.now.program op)) }
    {
        expect_at_least_operands(N, op, ctx)
    }

    /// The operand at an index of the first `N`, which are there.
    pub fn get_operand_i<O, B, T: TypeTable>(
        op: Ptr<Operation>,
        ctx: &TypedProgram<O, B, T>,
        i: usize,
    ) -> Value
        requires operation { IsSome (operation_at ctx.now.program op) }
        requires rule { N ≤ length (operands_at ctx.now.program op) }
        requires within { i < N }
        ensures { slice_get (operands_at ctx.now.program op) i ≡ Some result }
    {
        op.get_operand(ctx, i)
    }

    /// The type of the operand at an index of the first `N`, which are there.
    pub fn operand_type_i<O, B, T: TypeTable>(
        op: Ptr<Operation>,
        ctx: &TypedProgram<O, B, T>,
        i: usize,
    ) -> TypeHandle
        requires operation { IsSome (operation_at ctx.now.program op) }
        requires rule { N ≤ length (operands_at ctx.now.program op) }
        requires within { i < N }
        ensures { row_type ctx.now.program op Operands i ≡ Some result }
    {
        row_type(Row::Operands, op, ctx, i)
    }
}

/// The operation has at most one operand.
pub struct OptionalOpdInterface;

impl OpInterfaceMarker for OptionalOpdInterface {
    ghost INTERFACE = { interface.OptionalOpd };

    const INTERFACE: OpInterface = OpInterface::OptionalOpd;
}

impl OptionalOpdInterface {
    /// Whether the operation has at most one.
    pub fn verify<O, B, T: TypeTable>(
        op: Ptr<Operation>,
        ctx: &TypedProgram<O, B, T>,
    ) -> Result<(), AtMostNOpdsVerifyErr>
        requires { IsSome (operation_at ctx.now.program op) }
        ensures { AcceptsExactly result (length (operands_at ctx.now.program op) ≤ 1) }
    {
        expect_at_most_operands(1, op, ctx)
    }

    /// Its operand, where it has one.
    pub fn get_operand_opt<O, B, T: TypeTable>(
        op: Ptr<Operation>,
        ctx: &TypedProgram<O, B, T>,
    ) -> Option<Value>
        requires operation { IsSome (operation_at ctx.now.program op) }
        requires rule { length (operands_at ctx.now.program op) ≤ 1 }
        ensures { slice_get (operands_at ctx.now.program op) 0 ≡ result }
    {
        if op.get_num_operands(ctx) == 0 {
            return None;
        }
        Some(op.get_operand(ctx, 0))
    }
}

/// The operation has exactly one operand.
pub struct OneOpdInterface;

impl OpInterfaceMarker for OneOpdInterface {
    ghost INTERFACE = { interface.OneOpd };

    const INTERFACE: OpInterface = OpInterface::OneOpd;
}

impl OneOpdInterface {
    /// Whether the operation has exactly one.
    pub fn verify<O, B, T: TypeTable>(
        op: Ptr<Operation>,
        ctx: &TypedProgram<O, B, T>,
    ) -> Result<(), NOpdsVerifyErr>
        requires { IsSome (operation_at ctx.now.program op) }
        ensures { AcceptsExactly result (length (operands_at ctx.now.program op) ≡ 1) }
    {
        expect_operands(1, op, ctx)
    }

    /// Its operand.
    pub fn get_operand<O, B, T: TypeTable>(op: Ptr<Operation>, ctx: &TypedProgram<O, B, T>) -> Value
        requires operation { IsSome (operation_at ctx.now.program op) }
        requires rule { length (operands_at ctx.now.program op) ≡ 1 }
        ensures { slice_get (operands_at ctx.now.program op) 0 ≡ Some result }
    {
        op.get_operand(ctx, 0)
    }

    /// The type of its operand.
    pub fn operand_type<O, B, T: TypeTable>(
        op: Ptr<Operation>,
        ctx: &TypedProgram<O, B, T>,
    ) -> TypeHandle
        requires operation { IsSome (operation_at ctx.now.program op) }
        requires rule { length (operands_at ctx.now.program op) ≡ 1 }
        ensures { row_type ctx.now.program op Operands 0 ≡ Some result }
    {
        row_type(Row::Operands, op, ctx, 0)
    }
}
