//! Which block can be joined behind which.
ghost use Rattle.std.specs.Prelude.{◌≡◌, ◌↔◌, ℕ, Some, IfOk, IsSome, IsTrue, length, slice_get};
ghost use Rattle.ir_program.specs.Lists.{StandsInRegion, blocks_in};
ghost use Rattle.ir_program.specs.Program.{block_at, operation_at};
ghost use Rattle.ir_program.specs.declared.handles.BasicBlock.{BasicBlock};
ghost use Rattle.ir_program.specs.declared.handles.Ptr.{Ptr};
ghost use Rattle.ir_program.specs.declared.handles.Region.{Region};
ghost use Rattle.ir_trees.specs.Searched.{AreDistinct};
ghost use Rattle.ir_trees.specs.Stands.{ProgramTree, StandsFor, by_handle};
ghost use Rattle.opt_inside.specs.Numbered.{NumbersInside, numbers_of};
ghost use Rattle.opt_inside.specs.reach.Edges.{HasLocalEdgesFrom};
ghost use Rattle.opt_inside.specs.reach.Starts.{IsStartIn};
ghost use Rattle.opt_trees.specs.Simplify.{StartingRegions};
ghost use Rattle.opt_chains.specs.Chained.{LeadsWhereJoinable};
ghost use Rattle.opt_chains.specs.NextBlocks.{AreChainBlocks, GoesOn, IsChainBlock, StandsInSsa};

use crate::chain_exits::bare_exit;
use indexmap::IndexSet;
use ir_program::{BasicBlock, Operation, Program, Ptr};
use ir_trees::know_tree;
use opt_dialect::Meanings;
use opt_inside::reach::{Fate, Start, find_fates};
use opt_inside::{Inside, know_occurrences};
use opt_rows::ChainBlock;
use opt_steps::joined;
use std::alloc::{AllocError, Global};

/// The number of a block, if it has one.
fn number_of(blocks: &IndexSet<Ptr<BasicBlock>>, block: Ptr<BasicBlock>) -> Option<usize>
    requires { AreDistinct blocks.now.keys }
    ensures { (n : ℕ) → result ≡ Some n ↔ slice_get blocks.now.keys n ≡ Some block }
{
    blocks.get_index_of(&block)
}

/// Whether a block is in a region in which what comes first runs first.
fn is_in_ssa<D: Meanings>(program: &Program<D::Operation, D::Block>, block: Ptr<BasicBlock>) -> bool
    requires { IsSome (block_at program.now block) }
    ensures { IsTrue result ↔ StandsInSsa D.meaning program.now block }
{
    match program.parent_region(block) {
        Some(region) => {
            let owner = program.parent_operation(region);
            D::has_ssa_dominance(program.payload(owner), program.region_index(region))
        }
        None => false,
    }
}

/// Whether a block is the first of its region.
fn is_entry<O, B>(program: &Program<O, B>, block: Ptr<BasicBlock>) -> bool
    requires { IsSome (block_at program.now block) }
    ensures { (r : Ptr Region) → StandsInRegion program.now block r
        → IsTrue result ↔ slice_get (blocks_in program.now r) 0 ≡ Some block }
{
    program.previous_block(block).is_none()
}

/// The number of the block that a block goes on to alone, if it is entered in an SSA region.
fn only_next<D: Meanings>(
    program: &Program<D::Operation, D::Block>,
    blocks: &IndexSet<Ptr<BasicBlock>>,
    block: Ptr<BasicBlock>,
    fate: Fate,
) -> Option<usize>
    requires live { IsSome (block_at program.now block) }
    requires once { AreDistinct blocks.now.keys }
    ensures { (n : ℕ) → result ≡ Some n ↔ GoesOn D.meaning program.now blocks.now.keys fate block n }
{
    let Fate::Entered = fate else {
        return None;
    };
    if !is_in_ssa::<D>(program, block) {
        return None;
    }
    let Some(exit) = bare_exit::<D>(program, block) else {
        return None;
    };
    number_of(blocks, exit.target)
}

/// What joining sees of a block.
fn chain_block<D: Meanings>(
    program: &Program<D::Operation, D::Block>,
    blocks: &IndexSet<Ptr<BasicBlock>>,
    block: Ptr<BasicBlock>,
    fate: Fate,
) -> ChainBlock
    requires live { IsSome (block_at program.now block) }
    requires once { AreDistinct blocks.now.keys }
    ensures { IsChainBlock D.meaning program.now blocks.now.keys fate block result }
{
    ChainBlock {
        only: only_next::<D>(program, blocks, block, fate),
        is_entry: is_entry(program, block),
        edges: program.predecessor_count(block),
    }
}

/// What joining sees of each block, in their order.
///
/// # Errors
/// There may be no memory.
fn chain_blocks<D: Meanings>(
    alloc: Global,
    program: &Program<D::Operation, D::Block>,
    blocks: &IndexSet<Ptr<BasicBlock>>,
    fates: &[Fate],
) -> Result<Vec<ChainBlock>, AllocError>
    requires live { (k : ℕ) (b : Ptr BasicBlock) → slice_get blocks.now.keys k ≡ Some b
        → IsSome (block_at program.now b) }
    requires once { AreDistinct blocks.now.keys }
    requires len { length fates.now ≡ length blocks.now.keys }
    ensures { IfOk result (λ seen. AreChainBlocks D.meaning program.now blocks.now.keys fates.now seen.items) }
{
    let mut seen = Vec::new(alloc);
    for (number, block) in blocks.as_slice().iter().enumerate() {
        seen.push(chain_block::<D>(program, blocks, *block, fates[number]))?;
    }
    Ok(seen)
}

/// By number, which block can be joined behind each block inside an operation, if one can. The time is linear in what is
/// inside.
///
/// # Errors
/// There may be no memory.
pub(crate) fn next_blocks<D: Meanings>(
    alloc: Global,
    program: &Program<D::Operation, D::Block>,
    op: Ptr<Operation>,
    start: Start,
    inside: &Inside,
) -> Result<Vec<Option<usize>>, AllocError>
    requires live { IsSome (operation_at program.now op) }
    requires edges { HasLocalEdgesFrom D.meaning.is_terminator program.now start }
    requires numbered { NumbersInside program.now op (numbers_of inside.now) }
    ensures { IfOk result (λ next. (p : StartingRegions by_handle) → IsStartIn program.now start p
        → (t : ProgramTree D.Operation D.Block) → StandsFor program.now op t
        → LeadsWhereJoinable D.meaning p t inside.now.blocks.keys next.items) }
{
    program.know_lists();
    know_occurrences(program, op);
    know_tree(program, op);
    let fates = find_fates::<D>(alloc, program, op, start, inside)?;
    let seen = chain_blocks::<D>(alloc, program, &inside.blocks, fates.as_slice())?;
    joined(alloc, seen.as_slice())
}
