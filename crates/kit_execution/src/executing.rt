//! Running a function of a module that keeps the rules.
ghost use Rattle.std.specs.Prelude.{List, IsSome};
ghost use Rattle.ir_names.specs.declared.identifier.Identifier.{Identifier as Name};
ghost use Rattle.ir_program.specs.Program.{operation_at};
ghost use Rattle.kit_execution.specs.Moving.{PathMoves};
ghost use Rattle.kit_execution.specs.Obeying.{ObeysRules};
ghost use Rattle.kit_interpreter.specs.Running.{PathCanRun, Runs};

use ir_context::Context;
use ir_names::Identifier;
use ir_program::{Operation, Ptr};
use ir_trees::know_tree;
use kit::Kit;
use kit_flat::Outcome;
use kit_interpreter::{ExecFault, exec};
use std::alloc::Global;

/// Tells of runs in a module that keeps the rules, whatever path they start at: all functions that a run may call can
/// run, and it never comes to a standstill before it is over. It does nothing.
pub fn know_runs(ctx: &Context<Kit>, root: Ptr<Operation>)
    requires live { IsSome (operation_at ctx.now.program root) }
    requires obeys { ObeysRules ctx.now root }
    ensures can_run { (path : List Name) → PathCanRun ctx.now root path }
    ensures moves { (path : List Name) → PathMoves ctx.now root path }
{
    know_tree(ctx.program(), root);
}

/// Runs the function that a path leads to in a module that keeps the rules, on numbers, for at most `limit` steps.
///
/// The path has the names of the modules below `root` that the function is in, the outermost one first, and then its
/// own. Each operation is a step. The time is linear in what is in the module of the function, and in the steps.
///
/// # Errors
/// `WrongPath` where there is no function at the path; else `WrongArguments` where it takes another number of values,
/// or one is too large for its type; `Memory`.
pub fn execute(
    alloc: Global,
    ctx: &Context<Kit>,
    root: Ptr<Operation>,
    path: &[Identifier],
    arguments: &[u64],
    limit: u64,
) -> Result<Outcome, ExecFault>
    requires live { IsSome (operation_at ctx.now.program root) }
    requires obeys { ObeysRules ctx.now root }
    ensures { Runs ctx.now root path.now arguments.now limit result }
{
    know_runs(ctx, root);
    exec(alloc, ctx, root, path, arguments, limit)
}
