//! Lists of optimisations of a module.
ghost use Rattle.std.specs.Prelude.{◌≡◌, Err, OnOk, map};
ghost use Rattle.ir_base.specs.declared.growth.GrowError.TheVariants.{CounterFull};
ghost use Rattle.kit_ruled_passes.specs.Held.{HoldsModule};
ghost use Rattle.kit_optimiser.specs.Outside.{KeepsRest, StaysOutside};
ghost use Rattle.kit_optimiser.specs.Passed.{CountsTo, FillsUp, ExtendsPasses, IsOptimised, IsPassed, RunsPasses, StopsFull, pass_of};
ghost use Rattle.opt_inside.specs.Outside.{AddsNoneOutside};

use crate::{KitPass, know_sound, propagate_constants, remove_dead, simplify_control_flow};
use ir_base::GrowError;
use ir_context::Context;
use ir_program::{Operation, Ptr};
use kit::Kit;
use std::alloc::Global;

/// Runs a pass on a module.
///
/// # Errors
/// Those of the pass.
fn run_pass(
    alloc: Global,
    ctx: &mut Context<Kit>,
    root: Ptr<Operation>,
    pass: KitPass,
) -> Result<(), GrowError>
    requires { HoldsModule ctx.old root }
    ensures passed { OnOk result (IsPassed (pass_of pass) ctx.old ctx.new root) }
    ensures numbers { OnOk result (CountsTo (pass_of pass) ctx.old root ctx.new.program.counter) }
    ensures full { result ≡ Err CounterFull → StopsFull (pass_of pass) ctx.old root }
    ensures outside { KeepsRest ctx.old.program ctx.new.program root }
    ensures stays { OnOk result (StaysOutside ctx.old.program ctx.new.program root) }
    ensures none_come { OnOk result (AddsNoneOutside ctx.old.program ctx.new.program root) }
    ensures types { ctx.new.types ≡ ctx.old.types }
{
    match pass {
        KitPass::Sccp => propagate_constants(alloc, ctx, root),
        KitPass::Dce => remove_dead(alloc, ctx, root),
        KitPass::SimplifyCfg => simplify_control_flow(alloc, ctx, root),
    }
}

/// Runs a pass on a module after those that made it what it is.
///
/// # Errors
/// Those of the pass.
fn run_next_pass(
    alloc: Global,
    ctx: &mut Context<Kit>,
    root: Ptr<Operation>,
    pass: KitPass,
) -> Result<(), GrowError>
    requires { HoldsModule ctx.old root }
    ensures goes_on { OnOk result (ExtendsPasses (pass_of pass) ctx.old ctx.new root) }
    ensures passed { OnOk result (IsPassed (pass_of pass) ctx.old ctx.new root) }
    ensures numbers { OnOk result (CountsTo (pass_of pass) ctx.old root ctx.new.program.counter) }
    ensures full { result ≡ Err CounterFull → StopsFull (pass_of pass) ctx.old root }
    ensures outside { KeepsRest ctx.old.program ctx.new.program root }
    ensures stays { OnOk result (StaysOutside ctx.old.program ctx.new.program root) }
    ensures none_come { OnOk result (AddsNoneOutside ctx.old.program ctx.new.program root) }
    ensures types { ctx.new.types ≡ ctx.old.types }
{
    know_sound(ctx, root);
    run_pass(alloc, ctx, root, pass)
}

/// Runs passes one after another on a module that keeps the rules. What they make keeps them too, its program is what
/// the passes on programs make of the module's program, and where the module could be written as a text, so it can be
/// afterwards. What stands outside the module stays as it is.
///
/// # Errors
/// `Memory`, and `CounterFull` where too few numbers of values are left for a pass: those before it are done then, and
/// a part of it may be. What stands outside the module is as it was then too.
pub fn run_passes(
    alloc: Global,
    ctx: &mut Context<Kit>,
    root: Ptr<Operation>,
    passes: &[KitPass],
) -> Result<(), GrowError>
    requires { HoldsModule ctx.old root }
    ensures optimised { OnOk result (IsOptimised (map pass_of passes.now) ctx.old ctx.new root) }
    ensures runs { OnOk result (RunsPasses (map pass_of passes.now) ctx.old ctx.new root) }
    ensures full { result ≡ Err CounterFull → FillsUp (map pass_of passes.now) ctx.old root }
    ensures outside { KeepsRest ctx.old.program ctx.new.program root }
    ensures stays { OnOk result (StaysOutside ctx.old.program ctx.new.program root) }
    ensures none_come { OnOk result (AddsNoneOutside ctx.old.program ctx.new.program root) }
    ensures types { ctx.new.types ≡ ctx.old.types }
{
    for pass in passes {
        run_next_pass(alloc, ctx, root, *pass)?;
    }
    Ok(())
}
