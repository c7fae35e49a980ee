//! Removal of unreached blocks that begins at an operation, at the operations of a block or at a region.
ghost use Rattle.std.specs.Prelude.{◌≡◌, IsSome};
ghost use Rattle.ir_program.specs.Lists.{IsLinkedBlock};
ghost use Rattle.ir_program.specs.Program.{block_at, operation_at, region_at};
ghost use Rattle.ir_program.specs.declared.handles.Operation.{Operation};
ghost use Rattle.ir_program.specs.declared.handles.Ptr.{Ptr};
ghost use Rattle.ir_opts.specs.Places.{AnswersRemoval, IsRootOf};
ghost use Rattle.opt_inside.specs.reach.Edges.{HasLocalEdgesFrom};
ghost use Rattle.opt_inside.specs.declared.reach.starts.Start.TheVariants as start;
ghost use Rattle.ir_opts.specs.rewriting.Points.{LeavesErased};

use crate::rewriting::Rewriter;
use ir_context::{TypeTable, TypedProgram};
use ir_program::{BasicBlock, Operation, Program, Ptr, Region};
use opt_dialect::{IRStatus, OptDialect, OptError};
use opt_inside::reach::Start;
use opt_simplify::remove_unreached;
use std::alloc::Global;

/// The operation in whose region a block is.
pub fn root_of_block<O, B>(program: &Program<O, B>, block: Ptr<BasicBlock>) -> Ptr<Operation>
    requires { IsLinkedBlock program.now block }
    ensures live { IsSome (operation_at program.now result) }
    ensures root { IsRootOf program.now (start.Block block) result }
    ensures only { (q : Ptr Operation) → IsRootOf program.now (start.Block block) q → q ≡ result }
{
    let Some(region) = program.parent_region(block) else {
        unreachable!()
    };
    program.parent_operation(region)
}

/// The operation whose region it is.
pub fn root_of_region<O, B>(program: &Program<O, B>, region: Ptr<Region>) -> Ptr<Operation>
    requires { IsSome (region_at program.now region) }
    ensures live { IsSome (operation_at program.now result) }
    ensures root { IsRootOf program.now (start.Region region) result }
    ensures only { (q : Ptr Operation) → IsRootOf program.now (start.Region region) q → q ≡ result }
{
    program.parent_operation(region)
}

/// Removes unreached blocks where looking begins at a place of an operation.
fn remove_from<D: OptDialect, T: TypeTable>(
    alloc: Global,
    root: Ptr<Operation>,
    start: Start,
    ctx: &mut TypedProgram<D::Operation, D::Block, T>,
    rewriter: &mut Rewriter,
) -> Result<IRStatus, OptError>
    requires live { IsSome (operation_at ctx.old.program root) }
    requires edges { HasLocalEdgesFrom D.meaning.is_terminator ctx.old.program start }
    ensures answer { AnswersRemoval D.meaning ctx.old.program ctx.new.program start root result }
    ensures point { LeavesErased ctx.new.program rewriter.old.point rewriter.new.point }
    ensures numbers { ctx.new.program.counter ≡ ctx.old.program.counter }
    ensures types { ctx.new.types ≡ ctx.old.types }
{
    let result = remove_unreached::<D, T>(alloc, root, start, ctx);
    rewriter.leave_erased(ctx);
    result
}

/// Removes the blocks of visited SSA regions that no path from the entry of their region reaches, where the regions of
/// an operation are visited first. A rewriter's point is unset where its place is gone.
///
/// # Errors
/// `Memory`, and `LiveUse` where what would stay takes a value of what would go. Nothing has changed then.
pub fn remove_blocks_inside_op<D: OptDialect, T: TypeTable>(
    alloc: Global,
    op: Ptr<Operation>,
    ctx: &mut TypedProgram<D::Operation, D::Block, T>,
    rewriter: &mut Rewriter,
) -> Result<IRStatus, OptError>
    requires live { IsSome (operation_at ctx.old.program op) }
    requires edges { HasLocalEdgesFrom D.meaning.is_terminator ctx.old.program (start.Operation op) }
    ensures answer { (q : Ptr Operation) → IsRootOf ctx.old.program (start.Operation op) q
        → AnswersRemoval D.meaning ctx.old.program ctx.new.program (start.Operation op) q result }
    ensures point { LeavesErased ctx.new.program rewriter.old.point rewriter.new.point }
    ensures numbers { ctx.new.program.counter ≡ ctx.old.program.counter }
    ensures types { ctx.new.types ≡ ctx.old.types }
{
    remove_from::<D, T>(alloc, op, Start::Operation(op), ctx, rewriter)
}

/// Removes the blocks of visited SSA regions that no path from the entry of their region reaches, where the regions of
/// the operations in a block, which is in a region, are visited first. A rewriter's point is unset where its place is
/// gone.
///
/// # Errors
/// `Memory`, and `LiveUse` where what would stay takes a value of what would go. Nothing has changed then.
pub fn remove_blocks_inside_block<D: OptDialect, T: TypeTable>(
    alloc: Global,
    block: Ptr<BasicBlock>,
    ctx: &mut TypedProgram<D::Operation, D::Block, T>,
    rewriter: &mut Rewriter,
) -> Result<IRStatus, OptError>
    requires linked { IsLinkedBlock ctx.old.program block }
    requires edges { HasLocalEdgesFrom D.meaning.is_terminator ctx.old.program (start.Block block) }
    ensures answer { (q : Ptr Operation) → IsRootOf ctx.old.program (start.Block block) q
        → AnswersRemoval D.meaning ctx.old.program ctx.new.program (start.Block block) q result }
    ensures point { LeavesErased ctx.new.program rewriter.old.point rewriter.new.point }
    ensures numbers { ctx.new.program.counter ≡ ctx.old.program.counter }
    ensures types { ctx.new.types ≡ ctx.old.types }
{
    let root = root_of_block(ctx.program(), block);
    remove_from::<D, T>(alloc, root, Start::Block(block), ctx, rewriter)
}

/// Removes the blocks of visited SSA regions that no path from the entry of their region reaches, where a region
/// is visited first. A rewriter's point is unset where its place is gone.
///
/// # Errors
/// `Memory`, and `LiveUse` where what would stay takes a value of what would go. Nothing has changed then.
pub fn remove_blocks_inside_region<D: OptDialect, T: TypeTable>(
    alloc: Global,
    region: Ptr<Region>,
    ctx: &mut TypedProgram<D::Operation, D::Block, T>,
    rewriter: &mut Rewriter,
) -> Result<IRStatus, OptError>
    requires live { IsSome (region_at ctx.old.program region) }
    requires edges { HasLocalEdgesFrom D.meaning.is_terminator ctx.old.program (start.Region region) }
    ensures answer { (q : Ptr Operation) → IsRootOf ctx.old.program (start.Region region) q
        → AnswersRemoval D.meaning ctx.old.program ctx.new.program (start.Region region) q result }
    ensures point { LeavesErased ctx.new.program rewriter.old.point rewriter.new.point }
    ensures numbers { ctx.new.program.counter ≡ ctx.old.program.counter }
    ensures types { ctx.new.types ≡ ctx.old.types }
{
    let root = root_of_region(ctx.program(), region);
    remove_from::<D, T>(alloc, root, Start::Region(region), ctx, rewriter)
}
