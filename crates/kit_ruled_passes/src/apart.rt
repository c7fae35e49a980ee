//! Of a module that an optimisation worked on.
ghost use Rattle.std.specs.Prelude.{IsSome};
ghost use Rattle.ir_opts.specs.SimplifiedTree.{SimplifiesTree};
ghost use Rattle.ir_program.specs.Program.{operation_at};
ghost use Rattle.kit.specs.Context.{KitContext};
ghost use Rattle.kit.specs.Meaning.{kit};
ghost use Rattle.kit_ruled_passes.specs.Entering.{IsEnteredNowhere};
ghost use Rattle.kit_ruled_views.specs.Functions.{IsSelfContained};
ghost use Rattle.opt_dce.specs.Thins.{IsOutcome};
ghost use Rattle.opt_dialect.specs.declared.status.IRStatus.{IRStatus};
ghost use Rattle.opt_inside.specs.Occurring.{OfItsTree};
ghost use Rattle.opt_sccp.specs.Sccp.{IsPropagated};

use ir_context::Context;
use ir_program::{Operation, Ptr};
use ir_trees::know_tree;
use kit::Kit;

/// Tells of a context, before constants are put in below an operation, that the operation stays apart. It does nothing.
pub fn sccp_stays_apart(ctx: &Context<Kit>, root: Ptr<Operation>)
    requires { IsSome (operation_at ctx.now.program root) }
    ensures entered { (new : KitContext) (answer : IRStatus)
        → IsPropagated kit ctx.now.program new.program root answer
        → IsEnteredNowhere ctx.now root → IsEnteredNowhere new root }
    ensures contained { (new : KitContext) (answer : IRStatus)
        → IsPropagated kit ctx.now.program new.program root answer
        → IsSelfContained ctx.now root → IsSelfContained new root }
{
    let program = ctx.program();
    program.know_lists();
    program.know_values();
    program.know_operands();
    know_tree(program, root);
}

/// Tells of a context, before what is dead is taken out of an operation, that the operation stays apart. It does
/// nothing.
pub fn dce_stays_apart(ctx: &Context<Kit>, root: Ptr<Operation>)
    requires { IsSome (operation_at ctx.now.program root) }
    ensures entered { (new : KitContext) (answer : IRStatus)
        → OfItsTree ctx.now.program root (λ t. IsOutcome kit ctx.now.program new.program root t answer)
        → IsEnteredNowhere ctx.now root → IsEnteredNowhere new root }
    ensures contained { (new : KitContext) (answer : IRStatus)
        → OfItsTree ctx.now.program root (λ t. IsOutcome kit ctx.now.program new.program root t answer)
        → IsSelfContained ctx.now root → IsSelfContained new root }
{
    let program = ctx.program();
    program.know_lists();
    program.know_values();
    program.know_operands();
    know_tree(program, root);
}

/// Tells of a context, before control flow is simplified below an operation, that the operation stays apart. It does
/// nothing.
pub fn simplify_stays_apart(ctx: &Context<Kit>, root: Ptr<Operation>)
    requires { IsSome (operation_at ctx.now.program root) }
    ensures entered { (new : KitContext)
        → OfItsTree ctx.now.program root (λ t. SimplifiesTree kit ctx.now.program new.program root t)
        → IsEnteredNowhere ctx.now root → IsEnteredNowhere new root }
    ensures contained { (new : KitContext)
        → OfItsTree ctx.now.program root (λ t. SimplifiesTree kit ctx.now.program new.program root t)
        → IsSelfContained ctx.now root → IsSelfContained new root }
{
    let program = ctx.program();
    program.know_lists();
    program.know_values();
    program.know_operands();
    know_tree(program, root);
}
