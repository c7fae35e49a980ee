//! What simplification of control flow never answers.
ghost use Rattle.ir_opts.specs.Simplified.{StopsAt};
ghost use Rattle.kit.specs.Context.{KitProgram};
ghost use Rattle.kit.specs.Meaning.{kit};
ghost use Rattle.kit_ruled_passes.specs.Held.{HoldsModule};
ghost use Rattle.opt_dialect.specs.declared.status.OptError.TheVariants.{LiveUse};

use crate::refusals::know_scopes;
use ir_context::Context;
use ir_program::{Operation, Ptr};
use ir_trees::know_tree;
use kit::Kit;

/// Tells of a module that keeps the rules and stays apart that simplification of control flow never stops for a use:
/// neither does what stays take a value of a block that goes, nor does following what is forwarded come back. It does
/// nothing.
pub fn know_no_live_use(ctx: &Context<Kit>, root: Ptr<Operation>)
    requires { HoldsModule ctx.now root }
    ensures { (new : KitProgram) → StopsAt kit ctx.now.program new root LiveUse → ⊥ }
{
    let program = ctx.program();
    program.know_lists();
    program.know_values();
    know_tree(program, root);
    know_scopes(ctx, root);
}
