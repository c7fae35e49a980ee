//! Interfaces that say that types are alike.
ghost use Rattle.std.specs.Prelude.{◌≡◌, ◌<◌, ℕ, IsSome, Some};
ghost use Rattle.ir_names.specs.declared.interfaces.OpInterface.TheVariants as interface;
ghost use Rattle.ir_program.specs.Program.{operation_at};
ghost use Rattle.op_ifaces.specs.Rows.{row_length, row_type};
ghost use Rattle.op_ifaces.specs.Rules.{AcceptsExactly, HasOneType, HasOneTypeThroughout};
ghost use Rattle.op_ifaces.specs.declared.rows.Row.TheVariants.{Operands, Results};

use crate::rows::{Row, row_length, row_type};
use crate::type_tests::has_one_type;
use ir_context::{TypeTable, TypedProgram};
use ir_names::{OpInterface, TypeHandle};
use ir_program::{Operation, Ptr};
use ir_queries::OpInterfaceMarker;
use thiserror::Error;

/// Why the operands don't have one type.
#[derive(Clone, Copy, Debug, PartialEq, Eq, Error)]
pub enum SameOperandsTypeVerifyErr {
    /// There is no operand.
    #[error("expected at least one operand")]
    NoOperands,
    /// Two operands have different types.
    #[error("operands have different types")]
    TypesDiffer,
}

/// Why the results don't have one type.
#[derive(Clone, Copy, Debug, PartialEq, Eq, Error)]
pub enum SameResultsTypeVerifyErr {
    /// There is no result.
    #[error("expected at least one result")]
    NoResults,
    /// Two results have different types.
    #[error("results have different types")]
    TypesDiffer,
}

/// Why the operands and the results don't have one type.
#[derive(Clone, Copy, Debug, PartialEq, Eq, Error)]
pub enum SameOperandsAndResultTypeVerifyErr {
    /// The operands alone don't.
    #[error(transparent)]
    Operands(SameOperandsTypeVerifyErr),
    /// The results alone don't.
    #[error(transparent)]
    Results(SameResultsTypeVerifyErr),
    /// The operands' type differs from the results'.
    #[error("operands and results have different types")]
    TypesDiffer,
}

/// Whether there is an operand, and all have one type.
fn expect_same_operands<O, B, T: TypeTable>(
    op: Ptr<Operation>,
    ctx: &TypedProgram<O, B, T>,
) -> Result<(), SameOperandsTypeVerifyErr>
    requires { IsSome (operation_at ctx.now.program op) }
    ensures { AcceptsExactly result (HasOneType (row_type ctx.now.program op Operands)
        (row_length ctx.now.program op Operands)) }
{
    if has_one_type(Row::Operands, op, ctx) {
        return Ok(());
    }
    if row_length(Row::Operands, op, ctx) == 0 {
        return Err(SameOperandsTypeVerifyErr::NoOperands);
    }
    Err(SameOperandsTypeVerifyErr::TypesDiffer)
}

/// Whether there is a result, and all have one type.
fn expect_same_results<O, B, T: TypeTable>(
    op: Ptr<Operation>,
    ctx: &TypedProgram<O, B, T>,
) -> Result<(), SameResultsTypeVerifyErr>
    requires { IsSome (operation_at ctx.now.program op) }
    ensures { AcceptsExactly result (HasOneType (row_type ctx.now.program op Results)
        (row_length ctx.now.program op Results)) }
{
    if has_one_type(Row::Results, op, ctx) {
        return Ok(());
    }
    if row_length(Row::Results, op, ctx) == 0 {
        return Err(SameResultsTypeVerifyErr::NoResults);
    }
    Err(SameResultsTypeVerifyErr::TypesDiffer)
}

/// The operands have one type.
pub struct SameOperandsType;

impl OpInterfaceMarker for SameOperandsType {
    ghost INTERFACE = { interface.SameOperandsType };

    const INTERFACE: OpInterface = OpInterface::SameOperandsType;
}

impl SameOperandsType {
    /// Whether there is one at least, and they do.
    pub fn verify<O, B, T: TypeTable>(
        op: Ptr<Operation>,
        ctx: &TypedProgram<O, B, T>,
    ) -> Result<(), SameOperandsTypeVerifyErr>
        requires { IsSome (operation_at ctx.now.program op) }
        ensures { AcceptsExactly result (HasOneType (row_type ctx.now.program op Operands)
            (row_length ctx.now.program op Operands)) }
    {
        expect_same_operands(op, ctx)
    }

    /// The type of the operands.
    pub fn common_operand_type<O, B, T: TypeTable>(
        op: Ptr<Operation>,
        ctx: &TypedProgram<O, B, T>,
    ) -> TypeHandle
        requires operation { IsSome (operation_at ctx.now.program op) }
        requires rule { HasOneType (row_type ctx.now.program op Operands) (row_length ctx.now.program op Operands) }
        ensures { (k : ℕ) → k < row_length ctx.now.program op Operands
            → row_type ctx.now.program op Operands k ≡ Some result }
    {
        row_type(Row::Operands, op, ctx, 0)
    }
}

/// The results have one type.
pub struct SameResultsType;

impl OpInterfaceMarker for SameResultsType {
    ghost INTERFACE = { interface.SameResultsType };

    const INTERFACE: OpInterface = OpInterface::SameResultsType;
}

impl SameResultsType {
    /// Whether there is one at least, and they do.
    pub fn verify<O, B, T: TypeTable>(
        op: Ptr<Operation>,
        ctx: &TypedProgram<O, B, T>,
    ) -> Result<(), SameResultsTypeVerifyErr>
        requires { IsSome (operation_at ctx.now.program op) }
        ensures { AcceptsExactly result (HasOneType (row_type ctx.now.program op Results)
            (row_length ctx.now.program op Results)) }
    {
        expect_same_results(op, ctx)
    }

    /// The type of the results.
    pub fn common_result_type<O, B, T: TypeTable>(
        op: Ptr<Operation>,
        ctx: &TypedProgram<O, B, T>,
    ) -> TypeHandle
        requires operation { IsSome (operation_at ctx.now.program op) }
        requires rule { HasOneType (row_type ctx.now.program op Results) (row_length ctx.now.program op Results) }
        ensures { (k : ℕ) → k < row_length ctx.now.program op Results
            → row_type ctx.now.program op Results k ≡ Some result }
    {
        row_type(Row::Results, op, ctx, 0)
    }
}

/// The operands and the results have one type.
pub struct SameOperandsAndResultType;

impl OpInterfaceMarker for SameOperandsAndResultType {
    ghost INTERFACE = { interface.SameOperandsAndResultType };

    const INTERFACE: OpInterface = OpInterface::SameOperandsAndResultType;
}

impl SameOperandsAndResultType {
    /// Whether there is one at least of each, and they do.
    pub fn verify<O, B, T: TypeTable>(
        op: Ptr<Operation>,
        ctx: &TypedProgram<O, B, T>,
    ) -> Result<(), SameOperandsAndResultTypeVerifyErr>
        requires { IsSome (operation_at ctx.now.program op) }
        ensures { AcceptsExactly result (HasOneTypeThroughout ctx.now.program op) }
    {
        if let Err(fault) = expect_same_operands(op, ctx) {
            return Err(SameOperandsAndResultTypeVerifyErr::Operands(fault));
        }
        if let Err(fault) = expect_same_results(op, ctx) {
            return Err(SameOperandsAndResultTypeVerifyErr::Results(fault));
        }
        if row_type(Row::Operands, op, ctx, 0) == row_type(Row::Results, op, ctx, 0) {
            return Ok(());
        }
        Err(SameOperandsAndResultTypeVerifyErr::TypesDiffer)
    }

    /// The type of the operands and of the results.
    pub fn common_type<O, B, T: TypeTable>(
        op: Ptr<Operation>,
        ctx: &TypedProgram<O, B, T>,
    ) -> TypeHandle
        requires operation { IsSome (operation_at ctx.now.program op) }
        requires rule { HasOneTypeThroughout ctx.now.program op }
        ensures operands { (k : ℕ) → k < row_length ctx.now.program op Operands
            → row_type ctx.now.program op Operands k ≡ Some result }
        ensures results { (k : ℕ) → k < row_length ctx.now.program op Results
            → row_type ctx.now.program op Results k ≡ Some result }
    {
        row_type(Row::Operands, op, ctx, 0)
    }
}
