//! What becomes of the blocks inside an operation.
ghost use Rattle.std.specs.Prelude.{◌≡◌, ◌↔◌, ◌≤◌, ℕ, IfOk, IsSome, IsTrue, Some, length, slice_get};
ghost use Rattle.digraph.specs.Marks.{IsMarked};
ghost use Rattle.ir_program.specs.Lists.{IsLinkedBlock, StandsInOperation};
ghost use Rattle.ir_program.specs.Program.{operation_at};
ghost use Rattle.ir_program.specs.declared.handles.BasicBlock.{BasicBlock};
ghost use Rattle.ir_program.specs.declared.handles.Ptr.{Ptr};
ghost use Rattle.ir_trees.specs.Searched.{AreDistinct, Lists};
ghost use Rattle.ir_trees.specs.Stands.{ProgramTree, StandsFor, by_handle};
ghost use Rattle.opt_inside.specs.Numbered.{NumbersInside, numbers_of};
ghost use Rattle.opt_trees.specs.Simplify.{IsReached, StartingRegions};
ghost use Rattle.opt_inside.specs.declared.reach.fates.Fate.TheVariants.{Entered, Unreached};
ghost use Rattle.opt_inside.specs.reach.Edges.{HasLocalEdgesFrom, IsBlockUnder};
ghost use Rattle.opt_inside.specs.reach.Fates.{AreFates, HasReachTest, HasVisit, IsJudgedFate, fate};
ghost use Rattle.opt_inside.specs.reach.Starts.{IsStartIn};

use crate::reach::paths::{is_first, number_of_block, push_if, reached_blocks};
use crate::reach::starts::{Start, begins_at};
use crate::{Inside, know_occurrences};
use ir_program::{BasicBlock, Operation, Program, Ptr, Region};
use opt_dialect::Meanings;
use std::alloc::{AllocError, Global};

/// What becomes of a block.
#[derive(Clone, Copy, PartialEq, Eq)]
pub enum Fate {
    /// Its region is visited, and it is the entry, or what comes first runs first there and paths from the entry lead to it.
    Entered,
    /// Its region is visited, what comes first runs first there, and no path leads to it.
    Unreached,
    /// Its region isn't visited, or nothing is said of its blocks and it isn't the entry.
    Unvisited,
}

/// What becomes of a block, by whether its region is visited, whether what comes first runs first there, whether a path
/// from the entry leads to it, and whether it is the entry.
fn fate_by(visited: bool, is_ssa: bool, is_reached: bool, is_entry: bool) -> Fate
    ensures { result ≡ fate visited is_ssa is_reached is_entry }
{
    match (visited, is_ssa) {
        (false, _) => Fate::Unvisited,
        (true, true) if is_reached => Fate::Entered,
        (true, true) => Fate::Unreached,
        (true, false) if is_entry => Fate::Entered,
        (true, false) => Fate::Unvisited,
    }
}

/// Whether the number is that of a block that is entered.
fn is_entered(fates: &[Fate], number: usize) -> bool
    ensures { IsTrue result ↔ slice_get fates.now number ≡ Some Entered }
{
    matches!(fates.get(number), Some(Fate::Entered))
}

/// Whether the number is that of a block that is unreached.
fn is_unreached(fates: &[Fate], number: usize) -> bool
    ensures { IsTrue result ↔ slice_get fates.now number ≡ Some Unreached }
{
    matches!(fates.get(number), Some(Fate::Unreached))
}

/// Whether the number is marked.
fn is_marked(marks: &[bool], number: usize) -> bool
    ensures { IsTrue result ↔ IsMarked marks.now number }
{
    matches!(marks.get(number), Some(true))
}

/// Whether a region of an operation is visited: looking begins there, or the operation's block is entered.
fn is_visited<O, B>(
    program: &Program<O, B>,
    start: Start,
    inside: &Inside,
    fates: &[Fate],
    owner: Ptr<Operation>,
    region: Ptr<Region>,
) -> bool
    requires live { IsSome (operation_at program.now owner) }
    requires once { AreDistinct inside.now.blocks.keys }
    requires first { length fates.now ≤ length inside.now.blocks.keys }
    ensures { IsTrue result ↔ HasVisit program.now start inside.now.blocks.keys fates.now owner region }
{
    if begins_at(program, start, owner, region) {
        return true;
    }
    match program.parent_block(owner) {
        Some(block) => is_entered(fates, number_of_block(&inside.blocks, block)),
        None => false,
    }
}

/// What becomes of a block, by what becomes of those that it is in.
fn judge<D: Meanings>(
    program: &Program<D::Operation, D::Block>,
    start: Start,
    inside: &Inside,
    fates: &[Fate],
    block: Ptr<BasicBlock>,
    is_reached: bool,
) -> Fate
    requires linked { IsLinkedBlock program.now block }
    requires once { AreDistinct inside.now.blocks.keys }
    requires first { length fates.now ≤ length inside.now.blocks.keys }
    ensures { IsJudgedFate D.meaning program.now start inside.now.blocks.keys fates.now block is_reached result }
{
    program.know_lists();
    let Some(region) = program.parent_region(block) else {
        unreachable!()
    };
    let owner = program.parent_operation(region);
    let visited = is_visited(program, start, inside, fates, owner, region);
    let is_ssa = D::has_ssa_dominance(program.payload(owner), program.region_index(region));
    let is_entry = is_first(program, region, block);
    fate_by(visited, is_ssa, is_reached, is_entry)
}

/// What becomes of each block inside an operation, in their order.
fn judge_all<D: Meanings>(
    alloc: Global,
    program: &Program<D::Operation, D::Block>,
    op: Ptr<Operation>,
    start: Start,
    inside: &Inside,
    is_reached: &[bool],
) -> Result<Vec<Fate>, AllocError>
    requires live { IsSome (operation_at program.now op) }
    requires numbered { NumbersInside program.now op (numbers_of inside.now) }
    requires reached { (t : ProgramTree D.Operation D.Block) → StandsFor program.now op t
        → (k : ℕ) (b : Ptr BasicBlock) → slice_get inside.now.blocks.keys k ≡ Some b → IsBlockUnder program.now start b
        → IsMarked is_reached.now k ↔ IsReached t b }
    ensures len { IfOk result (λ fates. length fates.items ≡ length inside.now.blocks.keys) }
    ensures fates { IfOk result (λ fates. (p : StartingRegions by_handle) → IsStartIn program.now start p
        → (t : ProgramTree D.Operation D.Block) → StandsFor program.now op t
        → AreFates D.meaning p t inside.now.blocks.keys fates.items) }
{
    program.know_lists();
    know_occurrences(program, op);
    let mut fates = Vec::new(alloc);
    for (number, block) in inside.blocks.as_slice().iter().enumerate() {
        let mark = is_marked(is_reached, number);
        fates.push(judge::<D>(program, start, inside, &fates, *block, mark))?;
    }
    Ok(fates)
}

/// What becomes of each block inside an operation, in their order, where looking begins there. The time is linear in what
/// is inside.
///
/// # Errors
/// There may be no memory.
pub fn find_fates<D: Meanings>(
    alloc: Global,
    program: &Program<D::Operation, D::Block>,
    op: Ptr<Operation>,
    start: Start,
    inside: &Inside,
) -> Result<Vec<Fate>, AllocError>
    requires live { IsSome (operation_at program.now op) }
    requires edges { HasLocalEdgesFrom D.meaning.is_terminator program.now start }
    requires numbered { NumbersInside program.now op (numbers_of inside.now) }
    ensures len { IfOk result (λ fates. length fates.items ≡ length inside.now.blocks.keys) }
    ensures fates { IfOk result (λ fates. (p : StartingRegions by_handle) → IsStartIn program.now start p
        → (t : ProgramTree D.Operation D.Block) → StandsFor program.now op t
        → AreFates D.meaning p t inside.now.blocks.keys fates.items) }
    ensures reached { IfOk result (λ fates. (t : ProgramTree D.Operation D.Block) → StandsFor program.now op t
        → HasReachTest t) }
{
    let marks = reached_blocks::<D>(alloc, program, op, inside)?;
    judge_all::<D>(alloc, program, op, start, inside, &marks)
}

/// Those of the blocks that become unreached, in their order.
///
/// # Errors
/// There may be no memory.
pub fn unreached_among(
    alloc: Global,
    blocks: &[Ptr<BasicBlock>],
    fates: &[Fate],
) -> Result<Vec<Ptr<BasicBlock>>, AllocError>
    requires once { AreDistinct blocks.now }
    requires len { length fates.now ≡ length blocks.now }
    ensures listed { IfOk result (λ unreached. (b : Ptr BasicBlock)
        → Lists unreached.items b ↔ ((k : ℕ) × (slice_get blocks.now k ≡ Some b)
        × (slice_get fates.now k ≡ Some Unreached))) }
    ensures once { IfOk result (λ unreached. AreDistinct unreached.items) }
{
    let mut unreached = Vec::new(alloc);
    for (number, block) in blocks.iter().enumerate() {
        push_if(&mut unreached, *block, is_unreached(fates, number))?;
    }
    Ok(unreached)
}
