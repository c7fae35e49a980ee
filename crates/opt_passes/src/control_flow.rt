//! Simplification of control flow as a pass.
ghost use Rattle.std.specs.Prelude.{◌≡◌, IsSome};
ghost use Rattle.ir_program.specs.Program.{operation_at};
ghost use Rattle.opt_inside.specs.Edges.{FitsEdgesBelow, HasLocalEdgesBelow};
ghost use Rattle.opt_passes.specs.Outcomes.{SimplifiesFlow};
ghost use Rattle.pass_outside.specs.Outside.{LeavesOutside};

use crate::condition::{answer, test_condition};
use ir_opts::simplify_cfg;
use ir_program::{Operation, Ptr};
use ir_trees::know_tree;
use opt_dialect::{IRStatus, OptError};
use pass_analyses::{Analysis, AnalysisManager, PassResult, Verified, VerifiedContext};
use pass_managers::Pass;
use pass_outside::know_sound;
use std::alloc::Global;

/// Simplifies control flow. What isn't inside the operation is left, but for operands that named an argument of a block that
/// went.
///
/// # Errors
/// `Memory` and `LiveUse`: phases may be done then, or some of the branches decided.
fn simplify_flow<D: Verified>(
    alloc: Global,
    op: Ptr<Operation>,
    ctx: &mut VerifiedContext<D>,
) -> Result<IRStatus, OptError>
    requires live { IsSome (operation_at ctx.old.program op) }
    requires edges { HasLocalEdgesBelow D.meaning.is_terminator ctx.old.program op }
    requires fits { FitsEdgesBelow D.meaning ctx.old.program op }
    ensures made { SimplifiesFlow D.meaning ctx.old op result ctx.new }
    ensures rest { LeavesOutside ctx.old.program ctx.new.program op }
{
    know_sound(ctx.program());
    know_tree(ctx.program(), op);
    let made = simplify_cfg::<D, D::Types>(alloc, op, ctx);
    know_sound(ctx.program());
    made
}

/// Simplification of control flow below its operation, as `simplify_cfg` of `ir_opts` does it. It preserves no analysis where
/// there was anything to do.
///
/// # Errors
/// `Verify` where the dialect's verifiers refuse the operation, and `ForeignEdge` where they accept it and an edge below it
/// doesn't stay in its region: nothing is changed then. `Memory`: whole phases are done then, or some of the branches are
/// decided, each whole. `LiveUse` where what would stay takes a value of a block that would go: the branches are decided then;
/// or where following what was forwarded to an argument comes back to it: the blocks that nothing reaches are gone then too.
#[derive(Clone, Copy, Debug, Default)]
pub struct SimplifyCFGPass;

impl<D: Verified, E: Analysis<Dialect = D>> Pass<D, E> for SimplifyCFGPass {
    ghost use Rattle.std.specs.Prelude.{codes, false};
    ghost use Rattle.opt_passes.specs.Lawful.{flow_told, tested_keep, tested_stay_fresh, tested_tell};
    ghost use Rattle.opt_passes.specs.Tested.{RunsTested};

    ghost behaviour = { record {
      name_of = λ _. codes "simplify-cfg";
      manages = λ _. false;
      runs = λ p x c m r q d n. RunsTested D.accepts D.meaning.is_terminator (SimplifiesFlow D.meaning) x c m r d n;
    } };

    ghost keeps_rest = { λ p q x c d m n r sound live run. tested_keep sound live run };

    ghost tells_changes = { λ p q x c d m n r sound live run. tested_tell (flow_told D.meaning) run };

    ghost stays_fresh = { λ p q x c d m n r sound live run.
        tested_stay_fresh (flow_told D.meaning) E.Kind.eq E.reading run };

    fn name(&self) -> &str {
        "simplify-cfg"
    }

    fn is_pass_manager(&self) -> bool {
        false
    }

    fn run(
        &mut self,
        alloc: Global,
        op: Ptr<Operation>,
        ctx: &mut VerifiedContext<D>,
        _analyses: &mut AnalysisManager<E>,
    ) -> Result<PassResult<E>, OptError> {
        test_condition::<D>(alloc, op, ctx)?;
        answer(alloc, simplify_flow::<D>(alloc, op, ctx))
    }
}
