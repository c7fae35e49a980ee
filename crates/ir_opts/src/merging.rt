//! Joining of chains of blocks that begins at an operation, at the operations of a block or at a region.
ghost use Rattle.std.specs.Prelude.{◌≡◌, IsSome};
ghost use Rattle.ir_program.specs.Lists.{IsLinkedBlock};
ghost use Rattle.ir_program.specs.Program.{operation_at, region_at};
ghost use Rattle.ir_program.specs.declared.handles.Operation.{Operation};
ghost use Rattle.ir_program.specs.declared.handles.Ptr.{Ptr};
ghost use Rattle.ir_opts.specs.Places.{AnswersMerging, IsRootOf};
ghost use Rattle.opt_inside.specs.reach.Edges.{FitsEdgesFrom, HasLocalEdgesFrom};
ghost use Rattle.opt_inside.specs.declared.reach.starts.Start.TheVariants as start;
ghost use Rattle.ir_opts.specs.rewriting.Points.{LeavesErased};

use crate::joining::merge_chains;
use crate::places::{root_of_block, root_of_region};
use crate::rewriting::Rewriter;
use ir_context::{TypeTable, TypedProgram};
use ir_program::{BasicBlock, Operation, Ptr, Region};
use opt_dialect::{IRStatus, OptDialect, OptError};
use opt_inside::reach::Start;
use std::alloc::Global;

/// Joins chains of blocks where looking begins at a place of an operation.
fn merge_from<D: OptDialect, T: TypeTable>(
    alloc: Global,
    root: Ptr<Operation>,
    start: Start,
    ctx: &mut TypedProgram<D::Operation, D::Block, T>,
    rewriter: &mut Rewriter,
) -> Result<IRStatus, OptError>
    requires live { IsSome (operation_at ctx.old.program root) }
    requires edges { HasLocalEdgesFrom D.meaning.is_terminator ctx.old.program start }
    requires fits { FitsEdgesFrom D.meaning ctx.old.program start }
    ensures answer { AnswersMerging D.meaning ctx.old.program ctx.new.program start root result }
    ensures point { LeavesErased ctx.new.program rewriter.old.point rewriter.new.point }
    ensures numbers { ctx.new.program.counter ≡ ctx.old.program.counter }
    ensures types { ctx.new.types ≡ ctx.old.types }
{
    let result = merge_chains::<D, T>(alloc, root, start, ctx);
    rewriter.leave_erased(ctx);
    result
}

/// Joins each chain of blocks of visited SSA regions at its first block, where the regions of an operation are visited
/// first. Each use of an argument of a block that goes becomes a use of what was forwarded to it, also outside the
/// operation. A rewriter's point is unset where its place is gone.
///
/// # Errors
/// `Memory`, and `LiveUse` where following what was forwarded to an argument comes back to it. Nothing has changed
/// then.
pub fn merge_inside_op<D: OptDialect, T: TypeTable>(
    alloc: Global,
    op: Ptr<Operation>,
    ctx: &mut TypedProgram<D::Operation, D::Block, T>,
    rewriter: &mut Rewriter,
) -> Result<IRStatus, OptError>
    requires live { IsSome (operation_at ctx.old.program op) }
    requires edges { HasLocalEdgesFrom D.meaning.is_terminator ctx.old.program (start.Operation op) }
    requires fits { FitsEdgesFrom D.meaning ctx.old.program (start.Operation op) }
    ensures answer { (q : Ptr Operation) → IsRootOf ctx.old.program (start.Operation op) q
        → AnswersMerging D.meaning ctx.old.program ctx.new.program (start.Operation op) q result }
    ensures point { LeavesErased ctx.new.program rewriter.old.point rewriter.new.point }
    ensures numbers { ctx.new.program.counter ≡ ctx.old.program.counter }
    ensures types { ctx.new.types ≡ ctx.old.types }
{
    merge_from::<D, T>(alloc, op, Start::Operation(op), ctx, rewriter)
}

/// Joins each chain of blocks of visited SSA regions at its first block, where the regions of the operations in a
/// block, which is in a region, are visited first. Each use of an argument of a block that goes becomes a use of what
/// was forwarded to it. A rewriter's point is unset where its place is gone.
///
/// # Errors
/// `Memory`, and `LiveUse` where following what was forwarded to an argument comes back to it. Nothing has changed
/// then.
pub fn merge_inside_block<D: OptDialect, T: TypeTable>(
    alloc: Global,
    block: Ptr<BasicBlock>,
    ctx: &mut TypedProgram<D::Operation, D::Block, T>,
    rewriter: &mut Rewriter,
) -> Result<IRStatus, OptError>
    requires linked { IsLinkedBlock ctx.old.program block }
    requires edges { HasLocalEdgesFrom D.meaning.is_terminator ctx.old.program (start.Block block) }
    requires fits { FitsEdgesFrom D.meaning ctx.old.program (start.Block block) }
    ensures answer { (q : Ptr Operation) → IsRootOf ctx.old.program (start.Block block) q
        → AnswersMerging D.meaning ctx.old.program ctx.new.program (start.Block block) q result }
    ensures point { LeavesErased ctx.new.program rewriter.old.point rewriter.new.point }
    ensures numbers { ctx.new.program.counter ≡ ctx.old.program.counter }
    ensures types { ctx.new.types ≡ ctx.old.types }
{
    let root = root_of_block(ctx.program(), block);
    merge_from::<D, T>(alloc, root, Start::Block(block), ctx, rewriter)
}

/// Joins each chain of blocks of visited SSA regions at its first block, where a region is visited first. Each use of
/// an argument of a block that goes becomes a use of what was forwarded to it. A rewriter's point is unset where its
/// place is gone.
///
/// # Errors
/// `Memory`, and `LiveUse` where following what was forwarded to an argument comes back to it. Nothing has changed
/// then.
pub fn merge_inside_region<D: OptDialect, T: TypeTable>(
    alloc: Global,
    region: Ptr<Region>,
    ctx: &mut TypedProgram<D::Operation, D::Block, T>,
    rewriter: &mut Rewriter,
) -> Result<IRStatus, OptError>
    requires live { IsSome (region_at ctx.old.program region) }
    requires edges { HasLocalEdgesFrom D.meaning.is_terminator ctx.old.program (start.Region region) }
    requires fits { FitsEdgesFrom D.meaning ctx.old.program (start.Region region) }
    ensures answer { (q : Ptr Operation) → IsRootOf ctx.old.program (start.Region region) q
        → AnswersMerging D.meaning ctx.old.program ctx.new.program (start.Region region) q result }
    ensures point { LeavesErased ctx.new.program rewriter.old.point rewriter.new.point }
    ensures numbers { ctx.new.program.counter ≡ ctx.old.program.counter }
    ensures types { ctx.new.types ≡ ctx.old.types }
{
    let root = root_of_region(ctx.program(), region);
    merge_from::<D, T>(alloc, root, Start::Region(region), ctx, rewriter)
}
