//! Joining chains of blocks.
ghost use Rattle.std.specs.Prelude.{◌≡◌, ◌⊎◌, ◌↔◌, Ok, IfErr, IfOk, IsSome, OnErr, OnOk};
ghost use Rattle.ir_program.specs.Program.{operation_at};
ghost use Rattle.ir_trees.specs.Stands.{ProgramTree, StandsFor, by_handle};
ghost use Rattle.opt_chains.specs.Phases.{MergesBlocks};
ghost use Rattle.opt_dialect.specs.declared.status.IRStatus.TheVariants.{Unchanged};
ghost use Rattle.opt_dialect.specs.declared.status.OptError.TheVariants.{LiveUse, Memory};
ghost use Rattle.ir_opts.specs.joining.Answers.{HasCircle, HasNoCircle, HasNoneJoinable};
ghost use Rattle.opt_handles.specs.Handles.{KeepsHandles};
ghost use Rattle.opt_inside.specs.reach.Edges.{FitsEdgesFrom, HasLocalEdgesFrom};
ghost use Rattle.opt_inside.specs.reach.Starts.{IsStartIn};
ghost use Rattle.opt_trees.specs.Simplify.{StartingRegions};

use crate::joining::plan::find_plan;
use ir_context::{TypeTable, TypedProgram};
use ir_program::{Operation, Ptr};
use opt_chains::apply_plan;
use opt_dialect::{IRStatus, OptDialect, OptError};
use opt_inside::reach::Start;
use std::alloc::Global;

/// Joins each chain of blocks of visited SSA regions below an operation at its first block, where looking begins there:
/// the branches and blocks between go, and what was forwarded to an argument of a block that goes stands for it. It
/// answers whether there were any. The time is linear in what is inside.
///
/// # Errors
/// `Memory`, and `LiveUse` where following what was forwarded to an argument comes back to it. Nothing has changed then.
pub fn merge_chains<D: OptDialect, T: TypeTable>(
    alloc: Global,
    op: Ptr<Operation>,
    start: Start,
    ctx: &mut TypedProgram<D::Operation, D::Block, T>,
) -> Result<IRStatus, OptError>
    requires live { IsSome (operation_at ctx.old.program op) }
    requires edges { HasLocalEdgesFrom D.meaning.is_terminator ctx.old.program start }
    requires fits { FitsEdgesFrom D.meaning ctx.old.program start }
    ensures merged { OnOk result ((p : StartingRegions by_handle) → IsStartIn ctx.old.program start p
        → (t : ProgramTree D.Operation D.Block) → StandsFor ctx.old.program op t
        → MergesBlocks D.meaning p ctx.old.program ctx.new.program op t) }
    ensures accepted { OnOk result (HasNoCircle D.meaning ctx.old.program op start) }
    ensures unchanged { IfOk result (λ status. (status ≡ Unchanged)
        ↔ HasNoneJoinable D.meaning ctx.old.program op start) }
    ensures same { result ≡ Ok Unchanged → ctx.new ≡ ctx.old }
    ensures refused { IfErr result (λ e. (e ≡ Memory)
        ⊎ ((e ≡ LiveUse) × HasCircle D.meaning ctx.old.program op start)) }
    ensures kept { OnErr result (ctx.new ≡ ctx.old) }
    ensures handles { KeepsHandles ctx.old.program ctx.new.program op }
    ensures numbers { ctx.new.program.counter ≡ ctx.old.program.counter }
    ensures types { ctx.new.types ≡ ctx.old.types }
{
    let Some(plan) = find_plan::<D>(alloc, ctx.program(), op, start)? else {
        return Ok(IRStatus::Unchanged);
    };
    apply_plan::<D, T>(
        alloc,
        op,
        start,
        ctx,
        plan.stand_ins.as_slice(),
        plan.joins.as_slice(),
    );
    Ok(IRStatus::Changed)
}
