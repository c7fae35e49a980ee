//! What the laws ask of a tree beside a good one, of each tree of a context.
ghost use Rattle.std.specs.Prelude.{IsSome};
ghost use Rattle.ir_program.specs.Program.{operation_at};
ghost use Rattle.ir_trees.specs.Stands.{StandsFor};
ghost use Rattle.kit.specs.Context.{KitTree};
ghost use Rattle.kit_pass_rules.specs.ChainLaws.{DefinersApart};

use ir_context::Context;
use ir_program::{Operation, Ptr};
use kit::Kit;
use opt_inside::know_occurrences;

/// Tells that in the tree that an operation stands for no value is both an argument of a block and a result of an
/// operation. It does nothing.
pub fn know_definers(ctx: &Context<Kit>, op: Ptr<Operation>)
    requires { IsSome (operation_at ctx.now.program op) }
    ensures { (t : KitTree) → StandsFor ctx.now.program op t → DefinersApart t }
{
    let program = ctx.program();
    program.know_values();
    know_occurrences(program, op);
}
