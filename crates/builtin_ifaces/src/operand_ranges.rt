//! Operands from one index up to another one.
ghost use Rattle.std.specs.Prelude.{◌≡◌, ◌≤◌, IsSome, IfOk, drop, length, slice_range};
ghost use Rattle.ir_program.specs.Program.{operation_at};
ghost use Rattle.ir_program.specs.Rows.{operands_at};

use ir_context::{OperandCalls, TypeTable, TypedProgram};
use ir_program::{Operation, Ptr, Value};
use std::alloc::{AllocError, Global};

/// The operands from the start up to the end, which isn't among them.
pub(crate) fn operands_in<O, B, T: TypeTable>(
    alloc: Global,
    op: Ptr<Operation>,
    ctx: &TypedProgram<O, B, T>,
    start: usize,
    end: usize,
) -> Result<Vec<Value>, AllocError>
    requires live { IsSome (operation_at ctx.now.program op) }
    requires order { start ≤ end }
    requires within { end ≤ length (operands_at ctx.now.program op) }
    ensures { IfOk result (λ values. values.items ≡ slice_range (operands_at ctx.now.program op) start end) }
{
    let mut values = Vec::new(alloc);
    for i in start..end {
        values.push(op.get_operand(ctx, i))?;
    }
    Ok(values)
}

/// The operands from this one on, none where there are not so many.
#[tactic(auto, using(crate::proofs::RangeLemmas::rest_from))]
pub(crate) fn operands_from<O, B, T: TypeTable>(
    alloc: Global,
    op: Ptr<Operation>,
    ctx: &TypedProgram<O, B, T>,
    first: usize,
) -> Result<Vec<Value>, AllocError>
    requires { IsSome (operation_at ctx.now.program op) }
    ensures { IfOk result (λ values. values.items ≡ drop first (operands_at ctx.now.program op)) }
{
    let count = op.get_num_operands(ctx);
    operands_in(alloc, op, ctx, first.min(count), count)
}
