//! What the optimisations ask of an operation, and how a pass answers.
ghost use Rattle.std.specs.Prelude.{◌≡◌, [], IfErr, IfOk, IsSome, OnOk};
ghost use Rattle.ir_program.specs.Program.{operation_at};
ghost use Rattle.opt_inside.specs.Edges.{FitsEdgesBelow, HasLocalEdgesBelow};
ghost use Rattle.opt_inside.specs.facts.ByNumber.{LeadsBelow};
ghost use Rattle.opt_passes.specs.Tested.{FailsTest, status_of};

use ir_program::{Operation, Ptr};
use opt_dialect::{IRStatus, OptError};
use opt_inside::forwarding::has_local_edges_below;
use pass_analyses::{Analysis, PassResult, Verified, VerifiedContext};
use pass_managers::verify;
use std::alloc::Global;

/// Tests what the optimisations ask of an operation: its verifiers accept it, and edges below it stay in their regions.
///
/// # Errors
/// `Verify` where the verifiers refuse it, and `Memory` where there is none to tell. `ForeignEdge` where it is accepted, and
/// an edge below it leads out of its region, or one from elsewhere leads in.
pub(crate) fn test_condition<D: Verified>(
    alloc: Global,
    op: Ptr<Operation>,
    ctx: &VerifiedContext<D>,
) -> Result<(), OptError>
    requires { IsSome (operation_at ctx.now.program op) }
    ensures accepted { OnOk result (D.accepts ctx.now op) }
    ensures edges { OnOk result (HasLocalEdgesBelow D.meaning.is_terminator ctx.now.program op) }
    ensures leads { OnOk result (LeadsBelow ctx.now.program op) }
    ensures fits { OnOk result (FitsEdgesBelow D.meaning ctx.now.program op) }
    ensures refused { IfErr result (FailsTest (D.accepts ctx.now op)
        (HasLocalEdgesBelow D.meaning.is_terminator ctx.now.program op)) }
{
    verify::<D>(alloc, op, ctx)?;
    if !has_local_edges_below::<D>(ctx.program(), op) {
        return Err(OptError::ForeignEdge);
    }
    Ok(())
}

/// What a pass answers that preserves no analysis where it changed something.
pub(crate) fn answer<E: Analysis>(
    alloc: Global,
    made: Result<IRStatus, OptError>,
) -> Result<PassResult<E>, OptError>
    ensures status { status_of result ≡ made }
    ensures listed { IfOk result (λ answer. answer.preserved.items ≡ []) }
{
    let mut answer = PassResult::new(alloc);
    answer.ir_changed = made?;
    Ok(answer)
}
