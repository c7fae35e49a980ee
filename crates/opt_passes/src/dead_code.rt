//! Dead code elimination as a pass.
ghost use Rattle.std.specs.Prelude.{◌≡◌, IsSome};
ghost use Rattle.ir_program.specs.Program.{operation_at};
ghost use Rattle.opt_inside.specs.Edges.{HasLocalEdgesBelow};
ghost use Rattle.opt_passes.specs.Outcomes.{TakesOutDead};
ghost use Rattle.pass_outside.specs.Outside.{LeavesOutside};

use crate::condition::{answer, test_condition};
use ir_program::{Operation, Ptr};
use ir_trees::know_tree;
use opt_dce::dce;
use opt_dialect::{IRStatus, OptError};
use pass_analyses::{Analysis, AnalysisManager, PassResult, Verified, VerifiedContext};
use pass_managers::Pass;
use pass_outside::know_sound;
use std::alloc::Global;

/// Takes out what is dead. What isn't inside the operation is left.
///
/// # Errors
/// There may be no memory. Nothing is changed then.
fn take_out_dead<D: Verified>(
    alloc: Global,
    op: Ptr<Operation>,
    ctx: &mut VerifiedContext<D>,
) -> Result<IRStatus, OptError>
    requires live { IsSome (operation_at ctx.old.program op) }
    requires edges { HasLocalEdgesBelow D.meaning.is_terminator ctx.old.program op }
    ensures made { TakesOutDead D.meaning ctx.old op result ctx.new }
    ensures rest { LeavesOutside ctx.old.program ctx.new.program op }
{
    know_sound(ctx.program());
    know_tree(ctx.program(), op);
    let made = dce::<D, D::Types>(alloc, op, ctx);
    know_sound(ctx.program());
    made
}

/// Dead code elimination: takes out of its operation what is dead in it, as `dce` of `opt_dce` does. It preserves no analysis
/// where anything was dead.
///
/// # Errors
/// `Verify` where the dialect's verifiers refuse the operation, and `ForeignEdge` where they accept it and an edge below it
/// doesn't stay in its region. `Memory`. Nothing is changed then.
#[derive(Clone, Copy, Debug, Default)]
pub struct DCEPass;

impl<D: Verified, E: Analysis<Dialect = D>> Pass<D, E> for DCEPass {
    ghost use Rattle.std.specs.Prelude.{codes, false};
    ghost use Rattle.opt_passes.specs.Lawful.{dead_told, tested_keep, tested_stay_fresh, tested_tell};
    ghost use Rattle.opt_passes.specs.Tested.{RunsTested};

    ghost behaviour = { record {
      name_of = λ _. codes "dce";
      manages = λ _. false;
      runs = λ p x c m r q d n. RunsTested D.accepts D.meaning.is_terminator (TakesOutDead D.meaning) x c m r d n;
    } };

    ghost keeps_rest = { λ p q x c d m n r sound live run. tested_keep sound live run };

    ghost tells_changes = { λ p q x c d m n r sound live run. tested_tell (dead_told D.meaning) run };

    ghost stays_fresh = { λ p q x c d m n r sound live run.
        tested_stay_fresh (dead_told D.meaning) E.Kind.eq E.reading run };

    fn name(&self) -> &str {
        "dce"
    }

    fn is_pass_manager(&self) -> bool {
        false
    }

    fn run(
        &mut self,
        alloc: Global,
        op: Ptr<Operation>,
        ctx: &mut VerifiedContext<D>,
        _analyses: &mut AnalysisManager<E>,
    ) -> Result<PassResult<E>, OptError> {
        test_condition::<D>(alloc, op, ctx)?;
        answer(alloc, take_out_dead::<D>(alloc, op, ctx))
    }
}
