//! Removing blocks that nothing reaches.
ghost use Rattle.std.specs.Prelude.{◌≡◌, ◌↔◌, ◌⊎◌, true, false, IfErr, IfOk, IsSome, OnErr, OnOk};
ghost use Rattle.ir_program.specs.Program.{operation_at};
ghost use Rattle.ir_program.specs.declared.handles.BasicBlock.{BasicBlock};
ghost use Rattle.ir_program.specs.declared.handles.Ptr.{Ptr};
ghost use Rattle.ir_trees.specs.Searched.{AreDistinct, Lists};
ghost use Rattle.ir_trees.specs.Stands.{ProgramTree, StandsFor, by_handle};
ghost use Rattle.opt_dialect.specs.declared.status.IRStatus.TheVariants.{Unchanged};
ghost use Rattle.opt_dialect.specs.declared.status.OptError.TheVariants.{LiveUse, Memory};
ghost use Rattle.opt_handles.specs.Handles.{KeepsHandles};
ghost use Rattle.opt_inside.specs.Numbered.{NumbersInside, numbers_of};
ghost use Rattle.opt_inside.specs.reach.Edges.{HasLocalEdgesFrom};
ghost use Rattle.opt_inside.specs.reach.Fates.{HasReachTest};
ghost use Rattle.opt_inside.specs.reach.Starts.{IsStartIn};
ghost use Rattle.opt_trees.specs.Simplify.{IsUnreached, StartingRegions};
ghost use Rattle.opt_simplify.specs.Phases.{KeepsEdges, RemovesBlocks};
ghost use Rattle.opt_simplify.specs.Refusals.{AreUnreached, HasNoneUnreached, LosesNone, LosesUses};
ghost use Rattle.opt_simplify.specs.Removed.{DecidesWithin, TakesWithin, is_listed};

use crate::remove_blocks::remove_blocks;
use crate::remove_uses::is_taken_outside;
use ir_context::{TypeTable, TypedProgram};
use ir_program::{BasicBlock, IRNode, Operation, Program, Ptr};
use ir_trees::know_tree;
use opt_dialect::{IRStatus, Meanings, OptDialect, OptError};
use opt_inside::reach::{Start, find_fates, has_start, unreached_among};
use opt_inside::{Inside, know_occurrences, number_inside};
use std::alloc::{AllocError, Global};

/// The blocks inside an operation that nothing reaches.
#[derive(Drop)]
struct Unreached {
    /// These blocks, each once.
    blocks: Vec<Ptr<BasicBlock>>,
    /// Whether an operation that isn't in them takes a value that is defined in them.
    is_taken: bool,
}

/// Tells that each operation, block and region is inside an operation or isn't. It does nothing.
fn know_within<O, B>(program: &Program<O, B>, op: Ptr<Operation>)
    requires { IsSome (operation_at program.now op) }
    ensures { DecidesWithin program.now op }
{
    let _inside = program.nodes_inside(IRNode::Operation(op));
}

/// The blocks of visited SSA regions inside an operation that nothing reaches, each once.
fn unreached_blocks<D: Meanings>(
    alloc: Global,
    program: &Program<D::Operation, D::Block>,
    op: Ptr<Operation>,
    start: Start,
    inside: &Inside,
) -> Result<Vec<Ptr<BasicBlock>>, AllocError>
    requires live { IsSome (operation_at program.now op) }
    requires edges { HasLocalEdgesFrom D.meaning.is_terminator program.now start }
    requires numbered { NumbersInside program.now op (numbers_of inside.now) }
    ensures unreached { IfOk result (λ unreached. (p : StartingRegions by_handle) → IsStartIn program.now start p
        → (t : ProgramTree D.Operation D.Block) → StandsFor program.now op t
        → (b : Ptr BasicBlock) → Lists unreached.items b ↔ IsUnreached D.meaning p t b) }
    ensures once { IfOk result (λ unreached. AreDistinct unreached.items) }
    ensures reached { IfOk result (λ unreached. (t : ProgramTree D.Operation D.Block) → StandsFor program.now op t
        → HasReachTest t) }
{
    program.know_lists();
    know_occurrences(program, op);
    let fates = find_fates::<D>(alloc, program, op, start, inside)?;
    unreached_among(alloc, inside.blocks.as_slice(), &fates)
}

/// Finds the blocks inside an operation that nothing reaches, by the numbers of what is inside.
fn unreached_inside<D: Meanings>(
    alloc: Global,
    program: &Program<D::Operation, D::Block>,
    op: Ptr<Operation>,
    start: Start,
    inside: &Inside,
) -> Result<Unreached, AllocError>
    requires live { IsSome (operation_at program.now op) }
    requires start { (p : StartingRegions by_handle) × IsStartIn program.now start p }
    requires edges { HasLocalEdgesFrom D.meaning.is_terminator program.now start }
    requires numbered { NumbersInside program.now op (numbers_of inside.now) }
    ensures found { IfOk result (λ u. AreUnreached D.meaning program.now op start u.blocks.items) }
    ensures taken { IfOk result (λ u. u.is_taken ≡ true → LosesUses D.meaning program.now op start) }
    ensures not_taken { IfOk result (λ u. u.is_taken ≡ false → LosesNone D.meaning program.now op start) }
    ensures within { IfOk result (λ u. u.is_taken ≡ false → TakesWithin program.now (is_listed u.blocks.items)) }
{
    know_tree(program, op);
    know_within(program, op);
    program.know_lists();
    program.know_values();
    know_occurrences(program, op);
    let blocks = unreached_blocks::<D>(alloc, program, op, start, inside)?;
    let is_taken = is_taken_outside(alloc, program, inside.values.as_slice(), &blocks)?;
    Ok(Unreached { blocks, is_taken })
}

/// Finds the blocks inside an operation that nothing reaches, where looking begins there.
fn find_unreached<D: Meanings>(
    alloc: Global,
    program: &Program<D::Operation, D::Block>,
    op: Ptr<Operation>,
    start: Start,
) -> Result<Unreached, AllocError>
    requires live { IsSome (operation_at program.now op) }
    requires start { (p : StartingRegions by_handle) × IsStartIn program.now start p }
    requires edges { HasLocalEdgesFrom D.meaning.is_terminator program.now start }
    ensures found { IfOk result (λ u. AreUnreached D.meaning program.now op start u.blocks.items) }
    ensures taken { IfOk result (λ u. u.is_taken ≡ true → LosesUses D.meaning program.now op start) }
    ensures not_taken { IfOk result (λ u. u.is_taken ≡ false → LosesNone D.meaning program.now op start) }
    ensures within { IfOk result (λ u. u.is_taken ≡ false → TakesWithin program.now (is_listed u.blocks.items)) }
{
    let inside = number_inside(alloc, program, op)?;
    unreached_inside::<D>(alloc, program, op, start, &inside)
}

/// Removes the blocks of visited SSA regions inside an operation that no path from the entry of their region reaches, with
/// all that is in them. A region is visited where looking begins there, or where it is one of an operation in a block of a
/// visited region that is reached from the entry, or is the entry where the region is no SSA region. What goes is erased:
/// its handles are refused from then on, and so is each that was refused before. The time is linear in what is inside.
///
/// Source: Muchnick, Advanced compiler design and implementation, 1997, 18.1.
///
/// # Errors
/// There may be no memory; or something that would stay takes a value that is defined in what would go. Nothing has changed
/// then.
pub fn remove_unreached<D: OptDialect, T: TypeTable>(
    alloc: Global,
    op: Ptr<Operation>,
    start: Start,
    ctx: &mut TypedProgram<D::Operation, D::Block, T>,
) -> Result<IRStatus, OptError>
    requires live { IsSome (operation_at ctx.old.program op) }
    requires edges { HasLocalEdgesFrom D.meaning.is_terminator ctx.old.program start }
    ensures removed { OnOk result ((p : StartingRegions by_handle) → IsStartIn ctx.old.program start p
        → (t : ProgramTree D.Operation D.Block) → StandsFor ctx.old.program op t
        → RemovesBlocks D.meaning p ctx.old.program ctx.new.program op t) }
    ensures unchanged { IfOk result (λ status. (status ≡ Unchanged)
        ↔ HasNoneUnreached D.meaning ctx.old.program op start) }
    ensures same { IfOk result (λ status. status ≡ Unchanged → ctx.new ≡ ctx.old) }
    ensures accepted { IfOk result (λ status. LosesNone D.meaning ctx.old.program op start) }
    ensures refused { IfErr result (λ error. (error ≡ Memory)
        ⊎ ((error ≡ LiveUse) × LosesUses D.meaning ctx.old.program op start)) }
    ensures edges { OnOk result (KeepsEdges D.meaning ctx.old.program ctx.new.program op start) }
    ensures numbers { ctx.new.program.counter ≡ ctx.old.program.counter }
    ensures types { ctx.new.types ≡ ctx.old.types }
    ensures kept { OnErr result (ctx.new ≡ ctx.old) }
    ensures handles { KeepsHandles ctx.old.program ctx.new.program op }
{
    know_tree(ctx.program(), op);
    ctx.program().know_lists();
    if !has_start(ctx.program(), start) {
        return Ok(IRStatus::Unchanged);
    }
    let unreached = find_unreached::<D>(alloc, ctx.program(), op, start)?;
    if unreached.is_taken {
        return Err(OptError::LiveUse);
    }
    if unreached.blocks.is_empty() {
        return Ok(IRStatus::Unchanged);
    }
    remove_blocks(ctx, &unreached.blocks);
    Ok(IRStatus::Changed)
}
