//! What constant propagation never lacks.
ghost use Rattle.std.specs.Prelude.{IsSome};
ghost use Rattle.ir_program.specs.Program.{operation_at};
ghost use Rattle.ir_trees.specs.Stands.{by_handle};
ghost use Rattle.kit.specs.Meaning.{kit};
ghost use Rattle.kit_ops.specs.declared.attributes.IntegerAttr.{IntegerAttr};
ghost use Rattle.kit_ruled_views.specs.Functions.{KeepsRules};
ghost use Rattle.opt_inside.specs.Occurring.{OfItsTree};
ghost use Rattle.opt_trees.specs.Facts.{Facts, IsLacking, IsMostPrecise};

use ir_context::Context;
use ir_program::{Operation, Ptr};
use ir_trees::know_tree;
use kit::Kit;
use opt_inside::know_occurrences;

/// Tells of a module that keeps the rules that the most precise facts leave no operand undetermined of an operation
/// that is asked, in a block that runs: so constant propagation finds out something of each. It does nothing.
pub fn know_determined(ctx: &Context<Kit>, root: Ptr<Operation>)
    requires live { IsSome (operation_at ctx.now.program root) }
    requires rules { KeepsRules ctx.now root }
    ensures { OfItsTree ctx.now.program root
        (λ t. (k : Facts by_handle IntegerAttr) → IsMostPrecise kit t k → IsLacking kit t k → ⊥) }
{
    let program = ctx.program();
    program.know_lists();
    know_tree(program, root);
    know_occurrences(program, root);
}
