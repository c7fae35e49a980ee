//! Names of the constants that are put in.
ghost use Rattle.std.specs.Prelude.{IsSome};
ghost use Rattle.ir_program.specs.Program.{operation_at};
ghost use Rattle.kit.specs.Context.{KitProgram};
ghost use Rattle.opt_dialect.specs.declared.status.IRStatus.{IRStatus};
ghost use Rattle.opt_sccp.specs.Sccp.{IsPropagated};
ghost use Rattle.kit.specs.Meaning.{kit};
ghost use Rattle.kit_ruled_views.specs.Functions.{IsSelfContained};
ghost use Rattle.kit_ruled_views.specs.TreePasses.{IsSccpNamed};
ghost use Rattle.kit_ruled_passes.specs.Laws.{LeavesTree};

use ir_context::Context;
use ir_program::{Operation, Ptr};
use kit::Kit;

/// Tells of a context, before constants are put in below an operation of which no operation outside it takes a value,
/// that the operation stands for its tree with the constants afterwards, under names that are kept apart from each other
/// and from all others. It does nothing.
pub fn know_propagated(ctx: &Context<Kit>, root: Ptr<Operation>)
    requires live { IsSome (operation_at ctx.now.program root) }
    requires contained { IsSelfContained ctx.now root }
    ensures { (new : KitProgram) (answer : IRStatus) → IsPropagated kit ctx.now.program new root answer
        → LeavesTree ctx.now.program new root (λ t u. IsSccpNamed t u) }
{
    let program = ctx.program();
    program.know_lists();
    program.know_values();
}
