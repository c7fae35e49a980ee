//! Of the functions of a context.
ghost use Rattle.std.specs.Prelude.{IsSome};
ghost use Rattle.ir_program.specs.Lists.{StandsInside};
ghost use Rattle.ir_program.specs.Program.{operation_at};
ghost use Rattle.ir_program.specs.declared.handles.IRNode.TheVariants.{Operation as OperationNode};
ghost use Rattle.kit_ruled_views.specs.Functions.{HasFlatView, HasKnownConstants, HasNothingPinned, HasTypes};
ghost use Rattle.kit_ruled_views.specs.Functions.{IsSelfContained, KeepsRules};

use ir_context::Context;
use ir_program::{IRNode, Operation, Ptr};
use ir_trees::{know_handles, know_tree};
use kit::Kit;

/// Tells of a function of a module that keeps the rules that it has a flat view and is typed. It does nothing.
pub fn know_function(ctx: &Context<Kit>, root: Ptr<Operation>, function: Ptr<Operation>)
    requires live { IsSome (operation_at ctx.now.program root) }
    requires rules { KeepsRules ctx.now root }
    requires inside { StandsInside ctx.now.program (OperationNode root) (OperationNode function) }
    ensures flat { HasFlatView ctx.now function }
    ensures typed { HasTypes ctx.now function }
    ensures unpinned { IsSelfContained ctx.now root → HasNothingPinned ctx.now function }
    ensures constants { HasKnownConstants ctx.now function }
{
    let program = ctx.program();
    program.know_lists();
    program.know_values();
    know_tree(program, root);
    let _around = program.nodes_inside(IRNode::Operation(root));
    know_handles(program, function);
    let _inside = program.nodes_inside(IRNode::Operation(function));
}
