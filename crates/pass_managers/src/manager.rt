//! How managers run passes.
ghost use Rattle.std.specs.Prelude.{◌≡◌, IsSome, IfOk};
ghost use Rattle.ir_program.specs.Program.{operation_at};
ghost use Rattle.opt_dialect.specs.declared.status.IRStatus.TheVariants.{Unchanged};
ghost use Rattle.pass_analyses.specs.Fresh.{AllFresh, ListedFresh};
ghost use Rattle.pass_managers.specs.Running.{RunsPass};
ghost use Rattle.pass_outside.specs.Outside.{LeavesOutside};

use crate::pass::Pass;
use crate::verifying::verify_if;
use ir_program::{Operation, Ptr};
use opt_dialect::OptError;
use pass_analyses::{Analysis, AnalysisManager, PassResult, Verified, VerifiedContext};
use pass_outside::know_sound;
use std::alloc::Global;

/// Runs a pass at an operation, as told by the settings.
fn run_as_told<D: Verified, E: Analysis<Dialect = D>, P: Pass<D, E>>(
    alloc: Global,
    pass: &mut P,
    op: Ptr<Operation>,
    ctx: &mut VerifiedContext<D>,
    analyses: &mut AnalysisManager<E>,
) -> Result<PassResult<E>, OptError>
    requires live { IsSome (operation_at ctx.old.program op) }
    ensures { RunsPass P.behaviour D.accepts pass.old op ctx.old analyses.old result pass.new ctx.new analyses.new }
{
    know_sound(ctx.program());
    if pass.is_pass_manager() {
        return pass.run(alloc, op, ctx, analyses);
    }
    let name = pass.name();
    if analyses.pm_data.skips(name) {
        return Ok(PassResult::new(alloc));
    }
    if analyses.pm_data.count() == u64::MAX {
        return Err(OptError::CounterFull);
    }
    verify_if::<D>(alloc, analyses.pm_data.verifies_before(name), op, ctx)?;
    let verifies_after = analyses.pm_data.verifies_after(name);
    let answer = pass.run(alloc, op, ctx, analyses);
    verify_if::<D>(alloc, verifies_after, op, ctx)?;
    if analyses.pm_data.count() == u64::MAX {
        return Err(OptError::CounterFull);
    }
    analyses.pm_data.add_run();
    answer
}

/// Runs passes, as told by its settings.
pub struct PassManager;

impl PassManager {
    /// Runs a pass at an operation. One that is no manager may be skipped, the operation is verified before and after it
    /// where it is to be, and it is counted, also where it answers an error. What isn't inside the operation stays as it
    /// was, but for operands that named a value inside it.
    ///
    /// # Errors
    /// Those of the pass; `CounterFull` before any check where the count is at its greatest, and after the check that
    /// follows the pass, in place of its own answer; `Verify` where the operation isn't accepted and is to be, and `Memory`
    /// where there is none to tell. Before the pass nothing is changed then; after it that is answered first, and the pass
    /// isn't counted.
    pub fn run_pass<D: Verified, E: Analysis<Dialect = D>, P: Pass<D, E>>(
        alloc: Global,
        pass: &mut P,
        op: Ptr<Operation>,
        ctx: &mut VerifiedContext<D>,
        analyses: &mut AnalysisManager<E>,
    ) -> Result<PassResult<E>, OptError>
        requires live { IsSome (operation_at ctx.old.program op) }
        ensures runs { RunsPass P.behaviour D.accepts pass.old op ctx.old analyses.old result
            pass.new ctx.new analyses.new }
        ensures rest { LeavesOutside ctx.old.program ctx.new.program op }
        ensures told { IfOk result (λ r. r.ir_changed ≡ Unchanged → ctx.new ≡ ctx.old) }
        ensures fresh { IfOk result (λ r.
            AllFresh E.Kind.eq E.reading.gives ctx.old analyses.old.analyses.entries.entries
            → ListedFresh E.Kind.eq E.reading.gives r.preserved.items ctx.new analyses.new.analyses.entries.entries) }
    {
        know_sound(ctx.program());
        run_as_told(alloc, pass, op, ctx, analyses)
    }
}
