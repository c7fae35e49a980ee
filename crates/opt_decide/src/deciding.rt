//! Deciding branches.
ghost use Rattle.std.specs.Prelude.{◌≡◌, ◌↔◌, Ok, IfErr, IfOk, IsSome, OnErr, OnOk};
ghost use Rattle.ir_program.specs.Program.{operation_at};
ghost use Rattle.ir_trees.specs.Stands.{ProgramTree, StandsFor};
ghost use Rattle.opt_dialect.specs.declared.status.IRStatus.TheVariants.{Unchanged};
ghost use Rattle.opt_dialect.specs.declared.status.OptError.TheVariants.{Memory};
ghost use Rattle.opt_handles.specs.Handles.{KeepsHandles};
ghost use Rattle.opt_inside.specs.Edges.{FitsEdgesBelow, HasLocalEdgesBelow};
ghost use Rattle.opt_decide.specs.Phase.{CarriesOut, CarriesOutPart, DecidesBranches, HasDecided, HasDecidedSome, HasNoneDecided};
ghost use Rattle.opt_decide.specs.Planned.{AreDecisions};

use crate::Decision;
use crate::plan::decided_branches;
use crate::replacing::decide_branch;
use ir_context::{TypeTable, TypedProgram};
use ir_program::{Operation, Ptr};
use ir_trees::know_tree;
use opt_dialect::{IRStatus, OptDialect, OptError};
use opt_inside::{know_occurrences, know_taken};
use std::alloc::Global;

/// Carries decisions out, one after the other.
///
/// # Errors
/// There may be no memory. Some of the decisions are carried out then, the first of the list.
fn carry_out<D: OptDialect, T: TypeTable>(
    alloc: Global,
    ctx: &mut TypedProgram<D::Operation, D::Block, T>,
    _op: Ptr<Operation>,
    decisions: &[Decision],
) -> Result<(), OptError>
    requires { AreDecisions D.meaning ctx.old.program _op decisions.now }
    ensures done { OnOk result (HasDecided D.meaning ctx.old.program ctx.new.program decisions.now) }
    ensures part { OnErr result (HasDecidedSome D.meaning ctx.old.program ctx.new.program decisions.now) }
    ensures refused { IfErr result (λ e. e ≡ Memory) }
    ensures numbers { ctx.new.program.counter ≡ ctx.old.program.counter }
    ensures types { ctx.new.types ≡ ctx.old.types }
{
    for decision in decisions {
        decide_branch::<D, T>(alloc, ctx, *decision)?;
    }
    Ok(())
}

/// Makes the branches below an operation that their operands decide unconditional: branches that aren't unconditional,
/// without results and regions, whose operands pick an edge by what is known of each by its definer alone. Each becomes
/// a new operation in its place, which forwards what the old one forwarded along that edge, and is erased; all else keeps
/// its handle. It answers whether there were any.
///
/// # Errors
/// There may be no memory. Some of the branches are decided then, each whole.
pub fn decide_branches<D: OptDialect, T: TypeTable>(
    alloc: Global,
    op: Ptr<Operation>,
    ctx: &mut TypedProgram<D::Operation, D::Block, T>,
) -> Result<IRStatus, OptError>
    requires live { IsSome (operation_at ctx.old.program op) }
    ensures decided { IfOk result (λ status. (t : ProgramTree D.Operation D.Block) → StandsFor ctx.old.program op t
        → DecidesBranches D.meaning ctx.old.program ctx.new.program op t) }
    ensures exact { IfOk result (λ status. (status ≡ Unchanged) ↔ HasNoneDecided D.meaning ctx.old.program op) }
    ensures part { OnErr result (CarriesOutPart D.meaning ctx.old.program ctx.new.program op) }
    ensures local { IfOk result (λ status. HasLocalEdgesBelow D.meaning.is_terminator ctx.old.program op
        → HasLocalEdgesBelow D.meaning.is_terminator ctx.new.program op) }
    ensures fits { IfOk result (λ status. FitsEdgesBelow D.meaning ctx.old.program op
        → FitsEdgesBelow D.meaning ctx.new.program op) }
    ensures carried { IfOk result (λ status. CarriesOut D.meaning ctx.old.program ctx.new.program op status) }
    ensures unchanged { result ≡ Ok Unchanged → ctx.new ≡ ctx.old }
    ensures error { IfErr result (λ e. e ≡ Memory) }
    ensures handles { KeepsHandles ctx.old.program ctx.new.program op }
    ensures numbers { ctx.new.program.counter ≡ ctx.old.program.counter }
    ensures types { ctx.new.types ≡ ctx.old.types }
{
    let program = ctx.program();
    program.know_lists();
    program.know_values();
    program.know_operands();
    know_tree(program, op);
    know_occurrences(program, op);
    know_taken(program, op);
    let decisions = decided_branches::<D>(alloc, program, op)?;
    if decisions.is_empty() {
        return Ok(IRStatus::Unchanged);
    }
    carry_out::<D, T>(alloc, ctx, op, &decisions)?;
    Ok(IRStatus::Changed)
}
