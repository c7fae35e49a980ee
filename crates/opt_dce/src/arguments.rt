//! Taking arguments out.
ghost use Rattle.std.specs.Prelude.{◌≡◌, ℕ, true, Some, IsSome, length, slice_get};
ghost use Rattle.ir_program.specs.Edits.{EditsBlock};
ghost use Rattle.ir_program.specs.Program.{arguments_at, block_at, value_in};
ghost use Rattle.ir_program.specs.Uses.{IsUsed};
ghost use Rattle.ir_program.specs.declared.handles.Value.{Value};
ghost use Rattle.ir_trees.specs.Searched.{Lists};
ghost use Rattle.opt_dce.specs.declared.liveness.plan.DeadArguments.{DeadArguments};
ghost use Rattle.opt_dce.specs.Steps.{LosesArguments, loses_arguments};
ghost use Rattle.opt_dialect.specs.Masks.{marked};
ghost use Rattle.opt_trees.specs.Dialect.{drop};

use crate::liveness::DeadArguments;
use ir_context::{ArgumentCalls, TypeTable, TypedProgram};
use ir_program::{BasicBlock, Ptr};
use opt_dialect::Meanings;

/// Takes the marked arguments of a block, which no operation takes, out, the last first.
fn remove_arguments<O, B, T: TypeTable>(
    ctx: &mut TypedProgram<O, B, T>,
    block: Ptr<BasicBlock>,
    marks: &[bool],
)
    requires there { IsSome (block_at ctx.old.program block) }
    requires count { length marks.now ≡ length (arguments_at ctx.old.program block) }
    requires unused { (i : ℕ) (v : Value) → slice_get marks.now i ≡ Some true
        → value_in (arguments_at ctx.old.program block) i ≡ Some v → IsUsed ctx.old.program v → ⊥ }
    ensures removed { EditsBlock ctx.old.program ctx.new.program block
        (λ v. record v { arguments = drop (marked marks.now) v.arguments }) }
    ensures numbers { ctx.new.program.counter ≡ ctx.old.program.counter }
    ensures types { ctx.new.types ≡ ctx.old.types }
{
    for i in (0..marks.len()).rev() {
        if marks[i] {
            block.remove_argument(ctx, i);
        }
    }
}

/// Takes the marked arguments of a block out, and out of what it says of its arguments, where the block is still there.
fn lose_arguments<D: Meanings, T: TypeTable>(
    ctx: &mut TypedProgram<D::Operation, D::Block, T>,
    dead: &DeadArguments,
)
    requires count { IsSome (block_at ctx.old.program dead.now.block)
        → length dead.now.marks.items ≡ length (arguments_at ctx.old.program dead.now.block) }
    requires unused { (i : ℕ) (v : Value) → slice_get dead.now.marks.items i ≡ Some true
        → value_in (arguments_at ctx.old.program dead.now.block) i ≡ Some v → IsUsed ctx.old.program v → ⊥ }
    ensures lost { EditsBlock ctx.old.program ctx.new.program dead.now.block
        (loses_arguments D.meaning (marked dead.now.marks.items)) }
    ensures numbers { ctx.new.program.counter ≡ ctx.old.program.counter }
    ensures types { ctx.new.types ≡ ctx.old.types }
{
    if ctx.program().has_block(dead.block) {
        remove_arguments(ctx, dead.block, &dead.marks);
        D::remove_arguments(ctx.block_payload_mut(dead.block), &dead.marks);
    }
}

/// Takes the marked arguments of these blocks out, of those that are still there.
pub(crate) fn lose_all_arguments<D: Meanings, T: TypeTable>(
    ctx: &mut TypedProgram<D::Operation, D::Block, T>,
    dead: &[DeadArguments],
)
    requires count { (a : DeadArguments) → Lists dead.now a → IsSome (block_at ctx.old.program a.block)
        → length a.marks.items ≡ length (arguments_at ctx.old.program a.block) }
    requires unused { (a : DeadArguments) → Lists dead.now a → (i : ℕ) (v : Value)
        → slice_get a.marks.items i ≡ Some true → value_in (arguments_at ctx.old.program a.block) i ≡ Some v
        → IsUsed ctx.old.program v → ⊥ }
    requires once { (j k : ℕ) (a b : DeadArguments) → slice_get dead.now j ≡ Some a → slice_get dead.now k ≡ Some b
        → a.block ≡ b.block → j ≡ k }
    ensures lost { LosesArguments D.meaning ctx.old.program ctx.new.program dead.now }
    ensures numbers { ctx.new.program.counter ≡ ctx.old.program.counter }
    ensures types { ctx.new.types ≡ ctx.old.types }
{
    for a in dead {
        lose_arguments::<D, T>(ctx, a);
    }
}
