//! The rules that ask for a table of names, and their tests.
ghost use Rattle.std.specs.Prelude.{IsSome};
ghost use Rattle.ir_program.specs.Lists.{StandsInside};
ghost use Rattle.ir_program.specs.Program.{operation_at};
ghost use Rattle.ir_program.specs.declared.handles.IRNode.TheVariants.{Operation as OperationNode};
ghost use Rattle.kit_checks.specs.Searching.{Tells};
ghost use Rattle.kit_checks.specs.World.{world_of};
ghost use Rattle.kit_verifier.specs.Tables.{IsTable, rule_of};

use crate::callees::Callee;
use crate::calls::calls_fit;
use crate::modules::module_holds;
use indexmap::IndexSet;
use ir_context::Context;
use ir_hashing::TextKey;
use ir_program::{Operation, Ptr};
use kit::Kit;

/// What is known of the names inside a root before a rule is tested there.
#[derive(Drop)]
pub(crate) enum Table<'a> {
    /// For what modules hold: the operations that have the name of an earlier one of their block.
    Repeats(IndexSet<Ptr<Operation>>),
    /// For calls: the functions that can be called.
    Callees(IndexSet<Callee<'a>, TextKey>),
}

/// Whether an operation inside the root keeps the rule that the table is for.
pub(crate) fn keeps<'a>(
    ctx: &'a Context<Kit>,
    root: Ptr<Operation>,
    table: &Table<'a>,
    op: Ptr<Operation>,
) -> bool
    requires root { IsSome (operation_at ctx.now.program root) }
    requires inside { StandsInside ctx.now.program (OperationNode root) (OperationNode op) }
    requires op { IsSome (operation_at ctx.now.program op) }
    requires table { IsTable (world_of ctx.now) ctx.now.program root table.now }
    ensures { Tells (world_of ctx.now) ctx.now.program root (rule_of table.now) op result }
{
    match table {
        Table::Repeats(repeats) => module_holds(ctx, root, repeats, op),
        Table::Callees(callees) => calls_fit(ctx, root, callees, op),
    }
}
