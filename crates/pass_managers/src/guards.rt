//! Passes that run where a guard allows it.
ghost use Rattle.std.specs.Prelude.{◌≡◌, Bool, IsSome};
ghost use Rattle.ir_context.specs.Views.{ContextView};
ghost use Rattle.ir_program.specs.Program.{operation_at};
ghost use Rattle.ir_program.specs.declared.handles.Operation.{Operation as AnOperation};
ghost use Rattle.ir_program.specs.declared.handles.Ptr.{Ptr as Handle};

use crate::manager::PassManager;
use crate::pass::Pass;
use ir_program::{Operation, Ptr};
use opt_dialect::OptError;
use pass_analyses::{Analysis, AnalysisManager, PassResult, Verified, VerifiedContext};
use std::alloc::Global;
use std::ops::{Deref, DerefMut};

/// Where a pass may run.
pub trait Guard<D: Verified> {
    /// Where it may.
    ghost allows: { Self → ContextView D.Operation D.Block D.Types → Handle AnOperation → Bool };

    /// Whether it may run at an operation.
    fn is_allowed(&self, op: Ptr<Operation>, ctx: &VerifiedContext<D>) -> bool
        requires { IsSome (operation_at ctx.now.program op) }
        ensures { result ≡ allows self.now ctx.now op };
}

/// A pass that runs where a guard allows it.
#[derive(Default, Drop)]
pub struct GuardedPass<G: Drop, P: Drop> {
    pub(crate) guard: G,
    pub(crate) pass: P,
}

impl<G: Drop, P: Drop> GuardedPass<G, P> {
    /// With this guard and this pass.
    pub fn new(guard: G, pass: P) -> GuardedPass<G, P>
        ensures guard { result.guard ≡ guard }
        ensures pass { result.pass ≡ pass }
    {
        GuardedPass { guard, pass }
    }
}

impl<G: Drop, P: Drop> Deref for GuardedPass<G, P> {
    type Target = P;

    fn deref(&self) -> &P
        ensures { result.now ≡ self.now.pass }
    {
        &self.pass
    }
}

impl<G: Drop, P: Drop> DerefMut for GuardedPass<G, P> {
    fn deref_mut(&mut self) -> &mut P
        ensures { result.now ≡ self.old.pass }
    {
        &mut self.pass
    }
}

impl<D: Verified, E: Analysis<Dialect = D>, G: Guard<D> + Drop, P: Pass<D, E> + Drop> Pass<D, E>
    for GuardedPass<G, P> {
    ghost use Rattle.std.specs.Prelude.{codes, true};
    ghost use Rattle.pass_managers.specs.Running.{RunsWhere};
    ghost use Rattle.pass_managers.specs.lawful.GuardedPasses.{where_keep, where_stay_fresh, where_tell};

    ghost behaviour = { record {
      name_of = λ _. codes "guarded_pass";
      manages = λ _. true;
      runs = λ p x c m r q d n. (q.guard ≡ p.guard)
          × RunsWhere P.behaviour D.accepts (G.allows p.guard c x) p.pass x c m r q.pass d n;
    } };

    ghost keeps_rest = { λ p q x c d m n r sound live run.
        where_keep P.behaviour D.accepts P.keeps_rest sound live run.1 };

    ghost tells_changes = { λ p q x c d m n r sound live run.
        where_tell P.behaviour D.accepts P.tells_changes sound live run.1 };

    ghost stays_fresh = { λ p q x c d m n r sound live run.
        where_stay_fresh P.behaviour D.accepts E.Kind.eq E.reading P.stays_fresh sound live run.1 };

    fn name(&self) -> &str {
        "guarded_pass"
    }

    fn is_pass_manager(&self) -> bool {
        true
    }

    fn run(
        &mut self,
        alloc: Global,
        op: Ptr<Operation>,
        ctx: &mut VerifiedContext<D>,
        analyses: &mut AnalysisManager<E>,
    ) -> Result<PassResult<E>, OptError> {
        if self.guard.is_allowed(op, ctx) {
            PassManager::run_pass(alloc, &mut self.pass, op, ctx, analyses)
        } else {
            Ok(PassResult::new(alloc))
        }
    }
}
