//! Where edges lead in a module that keeps the rules.
ghost use Rattle.std.specs.Prelude.{IsSome};
ghost use Rattle.ir_program.specs.Lists.{StandsInside};
ghost use Rattle.ir_program.specs.Program.{operation_at};
ghost use Rattle.ir_program.specs.declared.handles.IRNode.TheVariants.{Operation as OperationNode};
ghost use Rattle.kit_ruled_passes.specs.Edges.{HasScopedEdges};
ghost use Rattle.kit_ruled_views.specs.Functions.{KeepsRules};
ghost use Rattle.opt_inside.specs.Occurring.{OfItsTree};
ghost use Rattle.opt_trees.specs.Simplify.{IsLocal};

use ir_context::Context;
use ir_program::{Operation, Ptr};
use ir_trees::know_tree;
use kit::Kit;
use opt_inside::know_occurrences;

/// Tells of an operation inside a module that keeps the rules, the module itself or a function say, that in its tree
/// each successor is a block of the region of the operation that names it, and that blocks there have names of their
/// own. It does nothing.
pub fn know_edges(ctx: &Context<Kit>, root: Ptr<Operation>, op: Ptr<Operation>)
    requires live { IsSome (operation_at ctx.now.program root) }
    requires rules { KeepsRules ctx.now root }
    requires inside { StandsInside ctx.now.program (OperationNode root) (OperationNode op) }
    ensures scoped { OfItsTree ctx.now.program op (λ u. HasScopedEdges u) }
    ensures local { OfItsTree ctx.now.program op (λ u. IsLocal u) }
{
    let program = ctx.program();
    program.know_lists();
    know_tree(program, root);
    know_occurrences(program, op);
}
