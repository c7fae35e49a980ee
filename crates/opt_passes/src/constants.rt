//! Constant propagation as a pass.
ghost use Rattle.std.specs.Prelude.{◌≡◌, IsSome};
ghost use Rattle.ir_program.specs.Program.{operation_at};
ghost use Rattle.opt_inside.specs.facts.ByNumber.{LeadsBelow};
ghost use Rattle.opt_passes.specs.Outcomes.{PutsConstantsIn};
ghost use Rattle.pass_outside.specs.Outside.{LeavesOutside};

use crate::condition::{answer, test_condition};
use ir_program::{Operation, Ptr};
use ir_trees::know_tree;
use opt_dialect::{IRStatus, OptError};
use opt_sccp::sccp;
use pass_analyses::{Analysis, AnalysisManager, PassResult, Verified, VerifiedContext};
use pass_managers::Pass;
use pass_outside::know_sound;
use std::alloc::Global;

/// Puts constants in. What isn't inside the operation is left, but for operands that named a value that got a constant.
///
/// # Errors
/// `UndeterminedOperand`: nothing is changed then. `Memory` and `CounterFull`: some of the constants may be put in then.
fn put_constants_in<D: Verified>(
    alloc: Global,
    op: Ptr<Operation>,
    ctx: &mut VerifiedContext<D>,
) -> Result<IRStatus, OptError>
    requires live { IsSome (operation_at ctx.old.program op) }
    requires edges { LeadsBelow ctx.old.program op }
    ensures made { PutsConstantsIn D.meaning ctx.old op result ctx.new }
    ensures rest { LeavesOutside ctx.old.program ctx.new.program op }
{
    know_sound(ctx.program());
    know_tree(ctx.program(), op);
    let made = sccp::<D, D::Types>(alloc, op, ctx);
    know_sound(ctx.program());
    made
}

/// Constant propagation: puts constants in for values below its operation, as `sccp` of `opt_sccp` does. It preserves no
/// analysis where any are put in.
///
/// # Errors
/// `Verify` where the dialect's verifiers refuse the operation, and `ForeignEdge` where they accept it and an edge below it
/// doesn't stay in its region. `UndeterminedOperand` where nothing is found out of an operand that a foldable operation or a
/// branch is asked for. Nothing is changed then. `Memory`, and `CounterFull` where there are not so many numbers left as
/// values get constants: some of the constants may have been put in then, each with all uses of its value.
#[derive(Clone, Copy, Debug, Default)]
pub struct SCCPPass;

impl<D: Verified, E: Analysis<Dialect = D>> Pass<D, E> for SCCPPass {
    ghost use Rattle.std.specs.Prelude.{codes, false};
    ghost use Rattle.opt_passes.specs.Lawful.{constants_told, tested_keep, tested_stay_fresh, tested_tell};
    ghost use Rattle.opt_passes.specs.Tested.{RunsTested};

    ghost behaviour = { record {
      name_of = λ _. codes "sccp";
      manages = λ _. false;
      runs = λ p x c m r q d n. RunsTested D.accepts D.meaning.is_terminator (PutsConstantsIn D.meaning) x c m r d n;
    } };

    ghost keeps_rest = { λ p q x c d m n r sound live run. tested_keep sound live run };

    ghost tells_changes = { λ p q x c d m n r sound live run. tested_tell (constants_told D.meaning) run };

    ghost stays_fresh = { λ p q x c d m n r sound live run.
        tested_stay_fresh (constants_told D.meaning) E.Kind.eq E.reading run };

    fn name(&self) -> &str {
        "sccp"
    }

    fn is_pass_manager(&self) -> bool {
        false
    }

    fn run(
        &mut self,
        alloc: Global,
        op: Ptr<Operation>,
        ctx: &mut VerifiedContext<D>,
        _analyses: &mut AnalysisManager<E>,
    ) -> Result<PassResult<E>, OptError> {
        test_condition::<D>(alloc, op, ctx)?;
        answer(alloc, put_constants_in::<D>(alloc, op, ctx))
    }
}
