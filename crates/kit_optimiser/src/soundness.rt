//! Of the trees of a module, that they are sound.
ghost use Rattle.kit_ruled_passes.specs.Held.{HoldsModule};
ghost use Rattle.kit_optimiser.specs.Passed.{IsSoundRoot};

use ir_context::Context;
use ir_program::{IRNode, Operation, Ptr};
use ir_trees::know_handles;
use kit::Kit;
use kit_pass_rules::know_handles_and_types;
use kit_ruled_views::rules_make_sound;

/// Tells of a module that a context holds that its tree is sound: so the optimisations on it are those on its program.
/// It does nothing.
pub fn know_sound(ctx: &Context<Kit>, root: Ptr<Operation>)
    requires { HoldsModule ctx.now root }
    ensures { IsSoundRoot ctx.now root }
{
    know_handles_and_types(ctx, root);
    rules_make_sound();
    let program = ctx.program();
    program.know_lists();
    program.know_values();
    know_handles(program, root);
    let _inside = program.nodes_inside(IRNode::Operation(root));
}
