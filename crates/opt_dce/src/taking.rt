//! Taking out what a plan lists.
ghost use Rattle.std.specs.Prelude.{◌≡◌};
ghost use Rattle.ir_trees.specs.Stands.{ProgramTree, StandsFor, by_handle};
ghost use Rattle.opt_dce.specs.Steps.{GoesBelowRoot};
ghost use Rattle.opt_dce.specs.Thins.{TakesOut};
ghost use Rattle.opt_dce.specs.liveness.Plans.{IsPlan, UsesGo};
ghost use Rattle.opt_trees.specs.Dce.{Gone};

use crate::arguments::lose_all_arguments;
use crate::erasing::{detach_all, drop_uses, erase_all};
use crate::liveness::DeadPlan;
use crate::operands::lose_all_operands;
use ir_context::{TypeTable, TypedProgram};
use ir_program::{Operation, Ptr};
use opt_dialect::OptDialect;

/// Takes what a plan lists out of an operation: operands, operations with all that is in them, and arguments of blocks.
/// What goes is below the operation and is used by what goes alone, or at operands that go. No memory is asked for, and
/// no step is refused.
///
/// Cost: linear in the plan and in what goes, however deep it is nested; in a row of operands or arguments, what stands
/// behind each one that goes moves up by one.
pub fn take_out<D: OptDialect, T: TypeTable>(
    ctx: &mut TypedProgram<D::Operation, D::Block, T>,
    _op: Ptr<Operation>,
    plan: &DeadPlan,
)
    requires { (g : Gone by_handle) × IsPlan ctx.old.program g plan.now × UsesGo ctx.old.program g
        × GoesBelowRoot ctx.old.program _op g }
    ensures taken { (g : Gone by_handle) → IsPlan ctx.old.program g plan.now → UsesGo ctx.old.program g
        → GoesBelowRoot ctx.old.program _op g → (t : ProgramTree D.Operation D.Block) → StandsFor ctx.old.program _op t
        → TakesOut D.meaning ctx.old.program ctx.new.program _op g t }
    ensures numbers { ctx.new.program.counter ≡ ctx.old.program.counter }
    ensures types { ctx.new.types ≡ ctx.old.types }
{
    ctx.program().know_lists();
    ctx.program().know_values();
    lose_all_operands::<D, T>(ctx, &plan.operands);
    // Out of their blocks none stands in another, so that each is walked over once in all.
    ctx.program().know_lists();
    detach_all(ctx, &plan.operations);
    drop_uses(ctx, &plan.operations);
    ctx.program().know_lists();
    erase_all(ctx, &plan.operations);
    lose_all_arguments::<D, T>(ctx, &plan.arguments);
}
