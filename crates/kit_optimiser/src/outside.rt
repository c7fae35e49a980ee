//! Of what stands outside a module.
ghost use Rattle.ir_opts.specs.Simplified.{StopsAt};
ghost use Rattle.ir_opts.specs.SimplifiedTree.{SimplifiesTree};
ghost use Rattle.kit.specs.Context.{KitProgram};
ghost use Rattle.kit.specs.Meaning.{kit};
ghost use Rattle.kit_ruled_passes.specs.Held.{HoldsModule};
ghost use Rattle.kit_optimiser.specs.Outside.{KeepsRest, LeavesRest};
ghost use Rattle.opt_dce.specs.Thins.{IsOutcome};
ghost use Rattle.opt_dialect.specs.declared.status.IRStatus.{IRStatus};
ghost use Rattle.opt_dialect.specs.declared.status.OptError.{OptError};
ghost use Rattle.opt_inside.specs.Occurring.{OfItsTree};
ghost use Rattle.opt_sccp.specs.Sccp.{IsPartlyPropagated, IsPropagated};

use ir_context::Context;
use ir_program::{Operation, Ptr};
use ir_trees::know_tree;
use kit::Kit;

/// Tells of a module that a context holds, before an optimisation works on it, what this leaves of all that stands
/// outside it. It does nothing.
pub(crate) fn know_rest(ctx: &Context<Kit>, root: Ptr<Operation>)
    requires { HoldsModule ctx.now root }
    ensures propagated { (new : KitProgram) (answer : IRStatus) → IsPropagated kit ctx.now.program new root answer
        → LeavesRest ctx.now.program new root }
    ensures propagated_in_part { (new : KitProgram) → IsPartlyPropagated kit ctx.now.program new root
        → KeepsRest ctx.now.program new root }
    ensures removed { (new : KitProgram) (answer : IRStatus)
        → OfItsTree ctx.now.program root (λ t. IsOutcome kit ctx.now.program new root t answer)
        → LeavesRest ctx.now.program new root }
    ensures simplified { (new : KitProgram)
        → OfItsTree ctx.now.program root (λ t. SimplifiesTree kit ctx.now.program new root t)
        → LeavesRest ctx.now.program new root }
    ensures stopped { (new : KitProgram) (error : OptError) → StopsAt kit ctx.now.program new root error
        → KeepsRest ctx.now.program new root }
{
    let program = ctx.program();
    program.know_lists();
    program.know_values();
    program.know_operands();
    know_tree(program, root);
}
