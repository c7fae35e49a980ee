//! What the optimisations never answer.
ghost use Rattle.std.specs.Prelude.{IsSome};
ghost use Rattle.ir_program.specs.Program.{operation_at};
ghost use Rattle.kit.specs.Context.{KitProgram};
ghost use Rattle.kit.specs.Meaning.{kit};
ghost use Rattle.kit_ruled_passes.specs.Phases.{DecidesBranchesBelow, RemovesBlocksBelow};
ghost use Rattle.kit_ruled_passes.specs.Scopes.{IsInScope, IsUntaken};
ghost use Rattle.kit_ruled_views.specs.Functions.{IsSelfContained, KeepsRules};
ghost use Rattle.ir_opts.specs.joining.Answers.{HasCircle};
ghost use Rattle.opt_inside.specs.declared.reach.starts.Start.TheVariants as start;
ghost use Rattle.opt_simplify.specs.Refusals.{LosesUses};

use ir_context::Context;
use ir_program::{Operation, Ptr};
use ir_trees::know_tree;
use kit::Kit;
use opt_inside::know_taken;

/// Tells of a module that keeps the rules that its operations take what is in scope alone, and that they do so still
/// when branches are decided and blocks are gone that nothing reaches. It does nothing.
pub fn know_scopes(ctx: &Context<Kit>, root: Ptr<Operation>)
    requires live { IsSome (operation_at ctx.now.program root) }
    requires rules { KeepsRules ctx.now root }
    ensures scoped { IsInScope ctx.now.program root }
    ensures decided { (new : KitProgram) → DecidesBranchesBelow ctx.now.program new root → IsInScope new root }
    ensures untaken { IsSelfContained ctx.now root
        → (new : KitProgram) → DecidesBranchesBelow ctx.now.program new root → IsUntaken new root }
    ensures cut { (mid new : KitProgram) → DecidesBranchesBelow ctx.now.program mid root
        → RemovesBlocksBelow mid new root
        → IsInScope new root }
{
    let program = ctx.program();
    program.know_lists();
    know_tree(program, root);
}

/// Tells that simplification of control flow has nothing to refuse where operations take what is in scope alone:
/// without the blocks that nothing reaches no use is lost, and following what is forwarded never comes back. It does
/// nothing.
pub fn know_no_refusal(ctx: &Context<Kit>, root: Ptr<Operation>)
    requires live { IsSome (operation_at ctx.now.program root) }
    requires scoped { IsInScope ctx.now.program root }
    ensures uses { IsUntaken ctx.now.program root
        → LosesUses kit ctx.now.program root (start.Operation root) → ⊥ }
    ensures circles { HasCircle kit ctx.now.program root (start.Operation root) → ⊥ }
{
    let program = ctx.program();
    program.know_lists();
    program.know_values();
    program.know_operands();
    know_tree(program, root);
    know_taken(program, root);
}
