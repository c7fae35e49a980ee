//! A pass at each of an operation's nested operations.
ghost use Rattle.std.specs.Prelude.{◌≡◌, IsSome};
ghost use Rattle.ir_program.specs.Program.{operation_at};
ghost use Rattle.pass_managers.specs.Running.{RunsNested};
ghost use Rattle.pass_outside.specs.Nested.{nested_in};

use crate::manager::PassManager;
use crate::pass::Pass;
use ir_program::{Operation, Ptr};
use opt_dialect::{IRStatus, OptError};
use pass_analyses::{Analysis, AnalysisManager, PassResult, Verified, VerifiedContext};
use pass_outside::{know_sound, nested_operations};
use std::alloc::Global;

/// A pass that runs at each operation of the operation's blocks.
#[derive(Drop)]
pub struct NestedOpsPass<P: Drop> {
    pub(crate) pass: P,
}

impl<P: Drop> NestedOpsPass<P> {
    /// With this pass.
    pub fn new(pass: P) -> NestedOpsPass<P>
        ensures { result.pass ≡ pass }
    {
        NestedOpsPass { pass }
    }
}

/// Runs a pass at operations one after another, which are an operation's nested ones, and lists the kinds that are still
/// cached.
fn run_at_each<D: Verified, E: Analysis<Dialect = D>, P: Pass<D, E>>(
    alloc: Global,
    pass: &mut P,
    op: Ptr<Operation>,
    nested: &[Ptr<Operation>],
    ctx: &mut VerifiedContext<D>,
    analyses: &mut AnalysisManager<E>,
) -> Result<PassResult<E>, OptError>
    requires live { IsSome (operation_at ctx.old.program op) }
    requires nested { nested.now ≡ nested_in ctx.old.program op }
    ensures { RunsNested P.behaviour D.accepts E.Kind.eq nested.now ctx.old analyses.old pass.old result
        pass.new ctx.new analyses.new }
{
    know_sound(ctx.program());
    let mut changed = IRStatus::Unchanged;
    for child in nested {
        let answer = PassManager::run_pass(alloc, pass, *child, ctx, analyses)?;
        changed |= answer.ir_changed;
        analyses.retain_preserved(&answer);
    }
    Ok(analyses.still_cached(changed)?)
}

impl<D: Verified, E: Analysis<Dialect = D>, P: Pass<D, E> + Drop> Pass<D, E> for NestedOpsPass<P> {
    ghost use Rattle.std.specs.Prelude.{codes, true};
    ghost use Rattle.pass_managers.specs.Running.{RunsOnNested};
    ghost use Rattle.pass_managers.specs.lawful.NestedPasses.{nested_keep, nested_stay_fresh, nested_tell};
    ghost use Rattle.pass_outside.specs.Nested.{nested_in};

    ghost behaviour = { record {
      name_of = λ _. codes "nested_ops_pass";
      manages = λ _. true;
      runs = λ p x c m r q d n. RunsOnNested P.behaviour D.accepts E.Kind.eq (nested_in c.program x) c m p.pass r q.pass d n;
    } };

    ghost keeps_rest = { λ p q x c d m n r sound live run.
        nested_keep P.behaviour D.accepts P.keeps_rest E.Kind.eq x sound live run };

    ghost tells_changes = { λ p q x c d m n r sound live run.
        nested_tell P.behaviour D.accepts P.keeps_rest P.tells_changes E.Kind.eq x sound live run };

    ghost stays_fresh = { λ p q x c d m n r sound live run.
        nested_stay_fresh P.behaviour D.accepts P.keeps_rest E.Kind.eq E.same_kinds E.reading P.stays_fresh x sound live run };

    fn name(&self) -> &str {
        "nested_ops_pass"
    }

    fn is_pass_manager(&self) -> bool {
        true
    }

    fn run(
        &mut self,
        alloc: Global,
        op: Ptr<Operation>,
        ctx: &mut VerifiedContext<D>,
        analyses: &mut AnalysisManager<E>,
    ) -> Result<PassResult<E>, OptError> {
        let nested = nested_operations(alloc, ctx.program(), op)?;
        run_at_each(alloc, &mut self.pass, op, nested.as_slice(), ctx, analyses)
    }
}
