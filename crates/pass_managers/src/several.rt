//! Several passes, one after another.
ghost use Rattle.std.specs.Prelude.{◌≡◌, ◌∷◌, ◌++◌, [], IsSome, OnOk, OnErr};
ghost use Rattle.ir_program.specs.Program.{operation_at};
ghost use Rattle.pass_managers.specs.Running.{RunsPasses};

use crate::manager::PassManager;
use crate::pass::Pass;
use ir_program::{Operation, Ptr};
use opt_dialect::{IRStatus, OptError};
use pass_analyses::{Analysis, AnalysisManager, PassResult, Verified, VerifiedContext};
use pass_outside::know_sound;
use std::alloc::{AllocError, Global};

/// Passes that run in their order.
#[derive(Drop)]
pub struct Passes<P: Drop> {
    pub(crate) passes: Vec<P>,
}

impl<P: Drop> Passes<P> {
    /// None.
    pub fn new(alloc: Global) -> Passes<P>
        ensures { result.passes.items ≡ [] }
    {
        Passes {
            passes: Vec::new(alloc),
        }
    }

    /// Adds one, to be run after the others.
    ///
    /// # Errors
    /// There may be no memory. The passes are as before then.
    pub fn add_pass(&mut self, pass: P) -> Result<(), AllocError>
        ensures ok { OnOk result (self.new.passes.items ≡ self.old.passes.items ++ pass ∷ []) }
        ensures err { OnErr result (self.new.passes.items ≡ self.old.passes.items) }
    {
        self.passes.push(pass)?;
        Ok(())
    }
}

/// Runs passes at an operation one after another, and lists the kinds that are still cached.
fn run_all<D: Verified, E: Analysis<Dialect = D>, P: Pass<D, E>>(
    alloc: Global,
    passes: &mut [P],
    op: Ptr<Operation>,
    ctx: &mut VerifiedContext<D>,
    analyses: &mut AnalysisManager<E>,
) -> Result<PassResult<E>, OptError>
    requires live { IsSome (operation_at ctx.old.program op) }
    ensures { RunsPasses P.behaviour D.accepts E.Kind.eq op ctx.old analyses.old passes.old result
        passes.new ctx.new analyses.new }
{
    know_sound(ctx.program());
    let mut changed = IRStatus::Unchanged;
    for index in 0..passes.len() {
        let answer = PassManager::run_pass(alloc, &mut passes[index], op, ctx, analyses)?;
        changed |= answer.ir_changed;
        analyses.retain_preserved(&answer);
    }
    Ok(analyses.still_cached(changed)?)
}

impl<D: Verified, E: Analysis<Dialect = D>, P: Pass<D, E> + Drop> Pass<D, E> for Passes<P> {
    ghost use Rattle.std.specs.Prelude.{codes, true};
    ghost use Rattle.pass_managers.specs.Running.{RunsPasses};
    ghost use Rattle.pass_managers.specs.lawful.PassesInOrder.{passes_keep, passes_tell, passes_stay_fresh};

    ghost behaviour = { record {
      name_of = λ _. codes "passes";
      manages = λ _. true;
      runs = λ p x c m r q d n. RunsPasses P.behaviour D.accepts E.Kind.eq x c m p.passes.items r q.passes.items d n;
    } };

    ghost keeps_rest = { λ p q x c d m n r sound live run.
        passes_keep P.behaviour D.accepts P.keeps_rest E.Kind.eq sound live run };

    ghost tells_changes = { λ p q x c d m n r sound live run.
        passes_tell P.behaviour D.accepts P.keeps_rest P.tells_changes E.Kind.eq sound live run };

    ghost stays_fresh = { λ p q x c d m n r sound live run.
        passes_stay_fresh P.behaviour D.accepts P.keeps_rest E.Kind.eq E.same_kinds E.reading P.stays_fresh sound live run };

    fn name(&self) -> &str {
        "passes"
    }

    fn is_pass_manager(&self) -> bool {
        true
    }

    fn run(
        &mut self,
        alloc: Global,
        op: Ptr<Operation>,
        ctx: &mut VerifiedContext<D>,
        analyses: &mut AnalysisManager<E>,
    ) -> Result<PassResult<E>, OptError> {
        run_all(alloc, self.passes.as_mut_slice(), op, ctx, analyses)
    }
}
