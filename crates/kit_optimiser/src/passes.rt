//! One optimisation of a module.
ghost use Rattle.std.specs.Prelude.{◌≡◌, Err, IfErr, OnErr, OnOk};
ghost use Rattle.ir_base.specs.declared.growth.GrowError.TheVariants.{CounterFull, Memory};
ghost use Rattle.kit_behaviour.specs.PassLists.{DcePass, LeanSccpPass, SimplifyPass};
ghost use Rattle.kit_ruled_passes.specs.Held.{HoldsModule};
ghost use Rattle.kit_optimiser.specs.Outside.{KeepsRest, StaysOutside};
ghost use Rattle.kit_optimiser.specs.Passed.{CountsTo, IsPassed, StopsFull};
ghost use Rattle.opt_inside.specs.Outside.{AddsNoneOutside};
ghost use Rattle.opt_dialect.specs.Statuses.{error_of};
ghost use Rattle.opt_sccp.specs.Made.{IsShortage};

use crate::outside::know_rest;
use ir_base::GrowError;
use ir_context::Context;
use ir_opts::{OptError, dce, sccp, simplify_cfg};
use ir_program::{Operation, Ptr};
use ir_trees::know_tree;
use ir_types::Types;
use kit::Kit;
use kit_pass_rules::{
    dce_keeps_rules, know_definers, know_handles_and_types, sccp_keeps_rules, simplify_keeps_rules,
};
use kit_ruled_passes::{
    dce_stays_apart, know_determined, know_edges, know_no_live_use, know_premises, know_propagated,
    know_surroundings, removed_stand_alone, sccp_stays_apart, simplified_stand_alone,
    simplify_stays_apart,
};
use kit_written_trees::{dce_stays_writable, sccp_stays_writable, simplify_stays_writable};
use opt_inside::know_occurrences;
use std::alloc::Global;

/// What can't grow, where a pass is refused for that.
fn shortage_of(error: OptError) -> GrowError
    requires { IsShortage error }
    ensures { error ≡ error_of result }
{
    match error {
        OptError::Memory => GrowError::Memory,
        OptError::CounterFull => GrowError::CounterFull,
        OptError::UndeterminedOperand => unreachable!(),
        OptError::LiveUse => unreachable!(),
        OptError::Verify => unreachable!(),
        OptError::ForeignEdge => unreachable!(),
    }
}

/// Propagates constants in a module that keeps the rules. What it makes keeps them too, and where the module could be
/// written as a text, so it can be afterwards. What stands outside the module stays as it is.
///
/// # Errors
/// `Memory`, and `CounterFull` where there are not so many numbers left as values get constants: some of these may be
/// put in then. What stands outside the module is as it was then too.
pub fn propagate_constants(
    alloc: Global,
    ctx: &mut Context<Kit>,
    root: Ptr<Operation>,
) -> Result<(), GrowError>
    requires { HoldsModule ctx.old root }
    ensures passed { OnOk result (IsPassed LeanSccpPass ctx.old ctx.new root) }
    ensures numbers { OnOk result (CountsTo LeanSccpPass ctx.old root ctx.new.program.counter) }
    ensures full { result ≡ Err CounterFull → StopsFull LeanSccpPass ctx.old root }
    ensures outside { KeepsRest ctx.old.program ctx.new.program root }
    ensures stays { OnOk result (StaysOutside ctx.old.program ctx.new.program root) }
    ensures none_come { OnOk result (AddsNoneOutside ctx.old.program ctx.new.program root) }
    ensures types { ctx.new.types ≡ ctx.old.types }
{
    know_premises(ctx, root);
    know_determined(ctx, root);
    know_handles_and_types(ctx, root);
    know_propagated(ctx, root);
    sccp_stays_apart(ctx, root);
    know_tree(ctx.program(), root);
    sccp_keeps_rules();
    sccp_stays_writable();
    know_rest(ctx, root);
    match sccp::<Kit, Types<Kit>>(alloc, root, ctx) {
        Ok(_) => {
            know_handles_and_types(ctx, root);
            Ok(())
        }
        Err(error) => Err(shortage_of(error)),
    }
}

/// Takes out what is dead in a module that keeps the rules. What it leaves keeps them too, and where the module could
/// be written as a text, so it can be afterwards. What stands outside the module stays as it is.
///
/// # Errors
/// There may be no memory. Nothing is changed then.
pub fn remove_dead(
    alloc: Global,
    ctx: &mut Context<Kit>,
    root: Ptr<Operation>,
) -> Result<(), GrowError>
    requires { HoldsModule ctx.old root }
    ensures passed { OnOk result (IsPassed DcePass ctx.old ctx.new root) }
    ensures numbers { CountsTo DcePass ctx.old root ctx.new.program.counter }
    ensures memory { IfErr result (λ error. error ≡ Memory) }
    ensures same { OnErr result (ctx.new ≡ ctx.old) }
    ensures outside { KeepsRest ctx.old.program ctx.new.program root }
    ensures stays { OnOk result (StaysOutside ctx.old.program ctx.new.program root) }
    ensures none_come { OnOk result (AddsNoneOutside ctx.old.program ctx.new.program root) }
    ensures types { ctx.new.types ≡ ctx.old.types }
{
    know_premises(ctx, root);
    know_handles_and_types(ctx, root);
    dce_stays_apart(ctx, root);
    know_tree(ctx.program(), root);
    know_occurrences(ctx.program(), root);
    removed_stand_alone();
    dce_keeps_rules();
    dce_stays_writable();
    know_rest(ctx, root);
    match dce::<Kit, Types<Kit>>(alloc, root, ctx) {
        Ok(_) => {
            know_handles_and_types(ctx, root);
            Ok(())
        }
        Err(error) => Err(shortage_of(error)),
    }
}

/// Simplifies control flow in a module that keeps the rules. What it makes keeps them too, and where the module could
/// be written as a text, so it can be afterwards. What stands outside the module stays as it is.
///
/// # Errors
/// `Memory`: some of the branches may be decided then, or whole phases done. Outside the module nothing is changed.
pub fn simplify_control_flow(
    alloc: Global,
    ctx: &mut Context<Kit>,
    root: Ptr<Operation>,
) -> Result<(), GrowError>
    requires { HoldsModule ctx.old root }
    ensures passed { OnOk result (IsPassed SimplifyPass ctx.old ctx.new root) }
    ensures numbers { CountsTo SimplifyPass ctx.old root ctx.new.program.counter }
    ensures memory { IfErr result (λ error. error ≡ Memory) }
    ensures outside { KeepsRest ctx.old.program ctx.new.program root }
    ensures stays { OnOk result (StaysOutside ctx.old.program ctx.new.program root) }
    ensures none_come { OnOk result (AddsNoneOutside ctx.old.program ctx.new.program root) }
    ensures types { ctx.new.types ≡ ctx.old.types }
{
    know_premises(ctx, root);
    know_edges(ctx, root, root);
    know_handles_and_types(ctx, root);
    know_definers(ctx, root);
    know_surroundings(ctx, root);
    know_no_live_use(ctx, root);
    simplify_stays_apart(ctx, root);
    know_tree(ctx.program(), root);
    simplified_stand_alone();
    simplify_keeps_rules();
    simplify_stays_writable();
    know_rest(ctx, root);
    match simplify_cfg::<Kit, Types<Kit>>(alloc, root, ctx) {
        Ok(_) => {
            know_handles_and_types(ctx, root);
            Ok(())
        }
        Err(error) => Err(shortage_of(error)),
    }
}
