//! Of what a context says beside a module.
ghost use Rattle.kit_ruled_passes.specs.Held.{HoldsModule, OfModule};
ghost use Rattle.kit_views.specs.FlatBranches.{KnowsConstants};
ghost use Rattle.kit_views.specs.Laws.{NothingPinned};

use ir_context::Context;
use ir_program::{Operation, Ptr};
use ir_trees::know_handles;
use kit::Kit;

/// Tells of a module that keeps the rules and stays apart that no value of it is named from outside it, and that of its
/// values exactly the results of constants are known alone. It does nothing.
pub fn know_surroundings(ctx: &Context<Kit>, root: Ptr<Operation>)
    requires { HoldsModule ctx.now root }
    ensures unpinned { OfModule ctx.now root (λ w t. NothingPinned w t) }
    ensures constants { OfModule ctx.now root (λ w t. KnowsConstants w t) }
{
    let program = ctx.program();
    program.know_lists();
    program.know_values();
    know_handles(program, root);
}
