//! Which blocks paths lead to from the entries of their regions.
ghost use Rattle.std.specs.Prelude.{◌≡◌, ◌↔◌, ℕ, IfOk, OnOk, IsSome, IsTrue, Some, length, map, slice_get, Contains};
ghost use Rattle.digraph.specs.Marks.{IsMarked};
ghost use Rattle.ir_program.specs.Lists.{IsLinkedBlock, blocks_in};
ghost use Rattle.ir_program.specs.Program.{block_at, operation_at, region_at};
ghost use Rattle.ir_program.specs.Rows.{successors_at};
ghost use Rattle.ir_program.specs.declared.handles.BasicBlock.{BasicBlock};
ghost use Rattle.ir_program.specs.declared.handles.Ptr.{Ptr};
ghost use Rattle.ir_trees.specs.Searched.{Lists};
ghost use Rattle.ir_trees.specs.Stands.{ProgramTree, StandsFor};
ghost use Rattle.opt_inside.specs.Numbered.{NumbersInside, numbers_of};
ghost use Rattle.opt_trees.specs.Simplify.{IsReached};
ghost use Rattle.opt_inside.specs.reach.Edges.{HasLocalEdgesFrom, IsBlockUnder};
ghost use Rattle.opt_inside.specs.declared.reach.starts.Start.{Start};
ghost use Rattle.opt_inside.specs.reach.Paths.{IsEntry, IsPathGraph, exits_of, items_if, number_in};

use crate::{Inside, know_occurrences};
use digraph::reached;
use indexmap::IndexSet;
use ir_program::{BasicBlock, Operation, Program, Ptr, Region};
use opt_dialect::Meanings;
use std::alloc::{AllocError, Global};

/// Puts an item behind others, if it is wanted.
pub(crate) fn push_if<T: Copy + Drop>(
    items: &mut Vec<T>,
    item: T,
    is_wanted: bool,
) -> Result<(), AllocError>
    ensures { OnOk result (items.new.items ≡ items_if is_wanted items.old.items item) }
{
    if is_wanted {
        items.push(item)?;
    }
    Ok(())
}

/// The number of a block: for one that has none that behind all others.
pub(crate) fn number_of_block(blocks: &IndexSet<Ptr<BasicBlock>>, block: Ptr<BasicBlock>) -> usize
    ensures { result ≡ number_in blocks.now.keys block }
{
    match blocks.get_index_of(&block) {
        Some(number) => number,
        None => blocks.len(),
    }
}

/// The numbers of the successors of an operation.
fn successor_numbers<O, B>(
    alloc: Global,
    program: &Program<O, B>,
    blocks: &IndexSet<Ptr<BasicBlock>>,
    op: Ptr<Operation>,
) -> Result<Vec<usize>, AllocError>
    requires { IsSome (operation_at program.now op) }
    ensures { IfOk result (λ row. row.items ≡ map (number_in blocks.now.keys) (successors_at program.now op)) }
{
    let mut row = Vec::new(alloc);
    for i in 0..program.successor_count(op) {
        row.push(number_of_block(blocks, program.successor(op, i)))?;
    }
    Ok(row)
}

/// The numbers of the successors of the last operation of a block.
fn exit_numbers<O, B>(
    alloc: Global,
    program: &Program<O, B>,
    blocks: &IndexSet<Ptr<BasicBlock>>,
    block: Ptr<BasicBlock>,
) -> Result<Vec<usize>, AllocError>
    requires { IsSome (block_at program.now block) }
    ensures { IfOk result (λ row. row.items ≡ map (number_in blocks.now.keys) (exits_of program.now block)) }
{
    match program.last_operation(block) {
        Some(op) => successor_numbers(alloc, program, blocks, op),
        None => Ok(Vec::new(alloc)),
    }
}

/// Whether a block is the first of a region.
pub(crate) fn is_first<O, B>(
    program: &Program<O, B>,
    region: Ptr<Region>,
    block: Ptr<BasicBlock>,
) -> bool
    requires { IsSome (region_at program.now region) }
    ensures { IsTrue result ↔ slice_get (blocks_in program.now region) 0 ≡ Some block }
{
    match program.first_block(region) {
        Some(first) => first == block,
        None => false,
    }
}

/// Whether a block is the first of its region.
fn is_entry<O, B>(program: &Program<O, B>, block: Ptr<BasicBlock>) -> bool
    requires { IsLinkedBlock program.now block }
    ensures { IsTrue result ↔ IsEntry program.now block }
{
    program.know_lists();
    match program.parent_region(block) {
        Some(region) => is_first(program, region, block),
        None => false,
    }
}

/// The numbers of the blocks that are the first of their regions.
fn entry_numbers<O, B>(
    alloc: Global,
    program: &Program<O, B>,
    blocks: &[Ptr<BasicBlock>],
) -> Result<Vec<usize>, AllocError>
    requires { (b : Ptr BasicBlock) → Lists blocks.now b → IsLinkedBlock program.now b }
    ensures { IfOk result (λ row. (n : ℕ) → Contains row.items n ↔ ((b : Ptr BasicBlock)
        × (slice_get blocks.now n ≡ Some b) × IsEntry program.now b)) }
{
    let mut row = Vec::new(alloc);
    for (number, block) in blocks.iter().enumerate() {
        push_if(&mut row, number, is_entry(program, *block))?;
    }
    Ok(row)
}

/// The rows of the graph of paths from entries.
fn path_rows<O, B>(
    alloc: Global,
    program: &Program<O, B>,
    blocks: &IndexSet<Ptr<BasicBlock>>,
) -> Result<Vec<Vec<usize>>, AllocError>
    requires { (b : Ptr BasicBlock) → Lists blocks.now.keys b → IsLinkedBlock program.now b }
    ensures { IfOk result (λ rows. IsPathGraph program.now blocks.now.keys rows.items) }
{
    let mut rows = Vec::new(alloc);
    for block in blocks.as_slice() {
        rows.push(exit_numbers(alloc, program, blocks, *block)?)?;
    }
    rows.push(entry_numbers(alloc, program, blocks.as_slice())?)?;
    Ok(rows)
}

/// Marks the numbers of the blocks inside an operation that paths lead to from the entries of their regions: of the blocks
/// under a place where edges stay in their region exactly the reached ones. The time is linear in what is inside.
///
/// # Errors
/// There may be no memory.
pub(crate) fn reached_blocks<D: Meanings>(
    alloc: Global,
    program: &Program<D::Operation, D::Block>,
    op: Ptr<Operation>,
    inside: &Inside,
) -> Result<Vec<bool>, AllocError>
    requires live { IsSome (operation_at program.now op) }
    requires numbered { NumbersInside program.now op (numbers_of inside.now) }
    ensures { IfOk result (λ marks. (start : Start) → HasLocalEdgesFrom D.meaning.is_terminator program.now start
        → (t : ProgramTree D.Operation D.Block) → StandsFor program.now op t
        → (k : ℕ) (b : Ptr BasicBlock) → slice_get inside.now.blocks.keys k ≡ Some b → IsBlockUnder program.now start b
        → IsMarked marks.items k ↔ IsReached t b) }
{
    program.know_lists();
    know_occurrences(program, op);
    let rows = path_rows(alloc, program, &inside.blocks)?;
    reached(alloc, &rows, inside.blocks.len())
}
