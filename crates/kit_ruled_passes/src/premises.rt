//! What the optimisations ask for.
ghost use Rattle.std.specs.Prelude.{IsSome};
ghost use Rattle.ir_program.specs.Program.{operation_at};
ghost use Rattle.kit.specs.Meaning.{kit};
ghost use Rattle.kit_ruled_passes.specs.Entering.{IsEnteredNowhere};
ghost use Rattle.kit_ruled_views.specs.Functions.{KeepsRules};
ghost use Rattle.opt_inside.specs.facts.ByNumber.{LeadsBelow};
ghost use Rattle.opt_inside.specs.Edges.{FitsEdgesBelow, HasLocalEdgesBelow};

use ir_context::Context;
use ir_program::{IRNode, Operation, Ptr};
use ir_trees::know_tree;
use kit::Kit;

/// Tells of a module that keeps the rules what the optimisations ask of its edges: they lead to blocks inside it and
/// forward as much as is taken; and they stay in their region, where no operation outside leads to a block inside. It
/// does nothing.
pub fn know_premises(ctx: &Context<Kit>, root: Ptr<Operation>)
    requires live { IsSome (operation_at ctx.now.program root) }
    requires rules { KeepsRules ctx.now root }
    ensures leads { LeadsBelow ctx.now.program root }
    ensures fits { FitsEdgesBelow kit ctx.now.program root }
    ensures edges { IsEnteredNowhere ctx.now root → HasLocalEdgesBelow kit.is_terminator ctx.now.program root }
{
    let program = ctx.program();
    program.know_lists();
    know_tree(program, root);
    let _around = program.nodes_inside(IRNode::Operation(root));
}
