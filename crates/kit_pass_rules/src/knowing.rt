//! What the laws ask of a tree beside the rules, of each tree of a context.
ghost use Rattle.std.specs.Prelude.{IsSome};
ghost use Rattle.ir_program.specs.Program.{operation_at, type_at};
ghost use Rattle.ir_trees.specs.Stands.{StandsFor};
ghost use Rattle.kit.specs.Context.{KitTree};
ghost use Rattle.kit_checks.specs.KitWorld.{HasDeclaredTypes};
ghost use Rattle.kit_pass_rules.specs.Worlds.{HandlesAreApart};

use ir_context::Context;
use ir_program::{Operation, Ptr};
use kit::Kit;
use opt_inside::know_occurrences;

/// Tells that in the tree that an operation stands for handles are apart, and that each value that is defined there has
/// the type that the tree says. It does nothing.
pub fn know_handles_and_types(ctx: &Context<Kit>, op: Ptr<Operation>)
    requires { IsSome (operation_at ctx.now.program op) }
    ensures apart { (t : KitTree) → StandsFor ctx.now.program op t → HandlesAreApart t }
    ensures typed { (t : KitTree) → StandsFor ctx.now.program op t → HasDeclaredTypes (type_at ctx.now.program) t }
{
    let program = ctx.program();
    program.know_values();
    know_occurrences(program, op);
}
