//! What passes are.
ghost use Rattle.std.specs.Prelude.{◌≡◌, IsSome};
ghost use Rattle.ir_program.specs.Program.{operation_at};
ghost use Rattle.pass_managers.specs.Behaviour.{Behaviour};
ghost use Rattle.pass_managers.specs.Laws.{KeepsRest, StaysFresh, TellsChanges};

use ir_program::{Operation, Ptr};
use opt_dialect::OptError;
use pass_analyses::{Analysis, AnalysisManager, PassResult, Verified, VerifiedContext};
use std::alloc::Global;

/// What runs at an operation.
pub trait Pass<D: Verified, E: Analysis<Dialect = D>> {
    /// Its name, whether it runs other passes, and what a run may do.
    ghost behaviour: { Behaviour Self (record {
      operation = D.Operation;
      block = D.Block;
      types = D.Types;
      analysis = E;
      kind = E.Kind;
      dialect = D;
      fault = D.Fault;
      constant = D.Constant;
    }) };

    /// Its name, by which it can be skipped, and verified before and after.
    fn name(&self) -> &str
        ensures { result.now ≡ behaviour.name_of self.now };

    /// Whether it runs other passes, by `PassManager::run_pass`. Such a pass is neither skipped, verified nor counted.
    fn is_pass_manager(&self) -> bool
        ensures { result ≡ behaviour.manages self.now };

    /// Runs at an operation.
    ///
    /// # Errors
    /// Its own. What isn't inside the operation is kept then too.
    fn run(
        &mut self,
        alloc: Global,
        op: Ptr<Operation>,
        ctx: &mut VerifiedContext<D>,
        analyses: &mut AnalysisManager<E>,
    ) -> Result<PassResult<E>, OptError>
        requires live { IsSome (operation_at ctx.old.program op) }
        ensures { behaviour.runs self.old op ctx.old analyses.old result self.new ctx.new analyses.new };

    /// What isn't inside its operation stays as it was, but for operands that named a value inside it.
    ghost keeps_rest: { KeepsRest behaviour };

    /// It answers that nothing was changed only where nothing was.
    ghost tells_changes: { TellsChanges behaviour };

    /// What it lists stays fresh.
    ghost stays_fresh: { StaysFresh behaviour E.Kind.eq E.reading };
}
