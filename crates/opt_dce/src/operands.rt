//! Taking operands out.
ghost use Rattle.std.specs.Prelude.{◌≡◌, ℕ, Some, IsSome, length, slice_get};
ghost use Rattle.ir_program.specs.Edits.{EditsOperation};
ghost use Rattle.ir_program.specs.Program.{operation_at};
ghost use Rattle.ir_program.specs.Rows.{operands_at};
ghost use Rattle.ir_trees.specs.Searched.{Lists};
ghost use Rattle.opt_dce.specs.declared.liveness.plan.LostOperands.{LostOperands};
ghost use Rattle.opt_dce.specs.Steps.{LosesListed, loses};
ghost use Rattle.opt_dialect.specs.Masks.{marked};
ghost use Rattle.opt_trees.specs.Dialect.{drop};

use crate::liveness::LostOperands;
use ir_context::{OperandCalls, TypeTable, TypedProgram};
use ir_program::{Operation, Ptr};
use opt_dialect::Meanings;

/// Takes the marked operands of an operation out, the last first.
fn remove_operands<O, B, T: TypeTable>(
    ctx: &mut TypedProgram<O, B, T>,
    op: Ptr<Operation>,
    marks: &[bool],
)
    requires there { IsSome (operation_at ctx.old.program op) }
    requires count { length marks.now ≡ length (operands_at ctx.old.program op) }
    ensures removed { EditsOperation ctx.old.program ctx.new.program op
        (λ v. record v { operands = drop (marked marks.now) v.operands }) }
    ensures numbers { ctx.new.program.counter ≡ ctx.old.program.counter }
    ensures types { ctx.new.types ≡ ctx.old.types }
{
    for i in (0..marks.len()).rev() {
        if marks[i] {
            op.remove_operand(ctx, i);
        }
    }
}

/// Takes the marked operands of an operation out, and out of what it says of its operands.
fn lose_operands<D: Meanings, T: TypeTable>(
    ctx: &mut TypedProgram<D::Operation, D::Block, T>,
    lost: &LostOperands,
)
    requires there { IsSome (operation_at ctx.old.program lost.now.op) }
    requires count { length lost.now.marks.items ≡ length (operands_at ctx.old.program lost.now.op) }
    ensures lost { EditsOperation ctx.old.program ctx.new.program lost.now.op
        (loses D.meaning (marked lost.now.marks.items)) }
    ensures numbers { ctx.new.program.counter ≡ ctx.old.program.counter }
    ensures types { ctx.new.types ≡ ctx.old.types }
{
    remove_operands(ctx, lost.op, &lost.marks);
    D::remove_operands(ctx.payload_mut(lost.op), &lost.marks);
}

/// Takes the marked operands of these operations out.
pub(crate) fn lose_all_operands<D: Meanings, T: TypeTable>(
    ctx: &mut TypedProgram<D::Operation, D::Block, T>,
    lost: &[LostOperands],
)
    requires there { (l : LostOperands) → Lists lost.now l → IsSome (operation_at ctx.old.program l.op) }
    requires count { (l : LostOperands) → Lists lost.now l
        → length l.marks.items ≡ length (operands_at ctx.old.program l.op) }
    requires once { (j k : ℕ) (l m : LostOperands) → slice_get lost.now j ≡ Some l → slice_get lost.now k ≡ Some m
        → l.op ≡ m.op → j ≡ k }
    ensures lost { LosesListed D.meaning ctx.old.program ctx.new.program lost.now }
    ensures numbers { ctx.new.program.counter ≡ ctx.old.program.counter }
    ensures types { ctx.new.types ≡ ctx.old.types }
{
    for l in lost {
        lose_operands::<D, T>(ctx, l);
    }
}
