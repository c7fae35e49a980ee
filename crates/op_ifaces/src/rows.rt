//! The rows of an operation whose types interfaces speak of.
ghost use Rattle.std.specs.Prelude.{◌≡◌, ◌<◌, Some, IsSome};
ghost use Rattle.ir_program.specs.Program.{operation_at};
ghost use Rattle.op_ifaces.specs.Rows.{row_length, row_type};

use ir_context::{OperandCalls, ResultCalls, TypeTable, TypedProgram, ValueCalls};
use ir_names::TypeHandle;
use ir_program::{Operation, Ptr};

/// The operands or the results of an operation.
#[derive(Clone, Copy, Debug, PartialEq, Eq)]
pub enum Row {
    /// The operands.
    Operands,
    /// The results.
    Results,
}

/// How many values are in the row.
pub(crate) fn row_length<O, B, T: TypeTable>(
    row: Row,
    op: Ptr<Operation>,
    ctx: &TypedProgram<O, B, T>,
) -> usize
    requires { IsSome (operation_at ctx.now.program op) }
    ensures { result ≡ row_length ctx.now.program op row }
{
    match row {
        Row::Operands => op.get_num_operands(ctx),
        Row::Results => op.get_num_results(ctx),
    }
}

/// The type of the value at an index of the row.
pub(crate) fn row_type<O, B, T: TypeTable>(
    row: Row,
    op: Ptr<Operation>,
    ctx: &TypedProgram<O, B, T>,
    i: usize,
) -> TypeHandle
    requires live { IsSome (operation_at ctx.now.program op) }
    requires within { i < row_length ctx.now.program op row }
    ensures { row_type ctx.now.program op row i ≡ Some result }
{
    match row {
        Row::Operands => op.get_operand(ctx, i).get_type(ctx),
        Row::Results => op.get_type(ctx, i),
    }
}
