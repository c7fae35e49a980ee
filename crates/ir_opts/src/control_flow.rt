//! Simplification of control flow.
ghost use Rattle.std.specs.Prelude.{◌≡◌, ◌↔◌, Ok, IfErr, IfOk, IsSome, OnOk};
ghost use Rattle.ir_program.specs.Program.{operation_at};
ghost use Rattle.ir_trees.specs.Stands.{ProgramTree, StandsFor};
ghost use Rattle.ir_opts.specs.Simplified.{HasNothingToDo, Simplifies, StopsAt};
ghost use Rattle.ir_opts.specs.SimplifiedTree.{SimplifiesTree};
ghost use Rattle.opt_dialect.specs.declared.status.IRStatus.TheVariants.{Unchanged};
ghost use Rattle.opt_handles.specs.Handles.{KeepsHandles};
ghost use Rattle.opt_inside.specs.Edges.{FitsEdgesBelow, HasLocalEdgesBelow};

use crate::joining::merge_chains;
use ir_context::{TypeTable, TypedProgram};
use ir_program::{Operation, Ptr};
use ir_trees::know_tree;
use opt_decide::decide_branches;
use opt_dialect::{IRStatus, OptDialect, OptError};
use opt_inside::reach::{Start, know_edges_under};
use opt_simplify::remove_unreached;
use std::alloc::Global;

/// Simplifies control flow below an operation, in three phases. Branches become unconditional where their operands
/// decide where they go; then blocks that no path from the entry of their region reaches go; then each chain of blocks
/// becomes one block, and each use of an argument of a block that goes becomes a use of what was forwarded to it. The
/// last two phases are of SSA regions that are visited, from the operation's own regions on. It answers whether there
/// was anything to do. What goes is erased: its handles are refused from then on, and so is each that was refused before.
/// All that stays keeps its handle.
///
/// Source: Muchnick, Advanced compiler design and implementation, 1997, 18.1 and 18.2.
///
/// # Errors
/// `Memory`: whole phases are done then, or some of the branches are decided, each whole. `LiveUse` where what would
/// stay takes a value of a block that would go: the branches are decided then; or where following what was forwarded
/// to an argument comes back to it: the blocks that nothing reaches are gone then too.
pub fn simplify_cfg<D: OptDialect, T: TypeTable>(
    alloc: Global,
    op: Ptr<Operation>,
    ctx: &mut TypedProgram<D::Operation, D::Block, T>,
) -> Result<IRStatus, OptError>
    requires live { IsSome (operation_at ctx.old.program op) }
    requires edges { HasLocalEdgesBelow D.meaning.is_terminator ctx.old.program op }
    requires fits { FitsEdgesBelow D.meaning ctx.old.program op }
    ensures simplified { OnOk result (Simplifies D.meaning ctx.old.program ctx.new.program op) }
    ensures tree { OnOk result ((t : ProgramTree D.Operation D.Block) → StandsFor ctx.old.program op t
        → SimplifiesTree D.meaning ctx.old.program ctx.new.program op t) }
    ensures unchanged { IfOk result (λ status. (status ≡ Unchanged) ↔ HasNothingToDo D.meaning ctx.old.program op) }
    ensures same { result ≡ Ok Unchanged → ctx.new ≡ ctx.old }
    ensures error { IfErr result (StopsAt D.meaning ctx.old.program ctx.new.program op) }
    ensures handles { KeepsHandles ctx.old.program ctx.new.program op }
    ensures numbers { ctx.new.program.counter ≡ ctx.old.program.counter }
    ensures types { ctx.new.types ≡ ctx.old.types }
{
    know_tree(ctx.program(), op);
    let mut status = decide_branches::<D, T>(alloc, op, ctx)?;
    know_edges_under::<D>(ctx.program(), op);
    status |= remove_unreached::<D, T>(alloc, op, Start::Operation(op), ctx)?;
    status |= merge_chains::<D, T>(alloc, op, Start::Operation(op), ctx)?;
    Ok(status)
}
