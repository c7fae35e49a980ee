//! Which blocks are joined behind which.
ghost use Rattle.std.specs.Prelude.{◌≡◌, ◌⊎◌, ◌↔◌, false, true, [], IfOk, IsSome, IsTrue};
ghost use Rattle.ir_program.specs.Lists.{StandsInRegion};
ghost use Rattle.ir_program.specs.Program.{block_at, operation_at};
ghost use Rattle.ir_program.specs.declared.handles.BasicBlock.{BasicBlock};
ghost use Rattle.ir_program.specs.declared.handles.Ptr.{Ptr};
ghost use Rattle.ir_trees.specs.Searched.{Lists};
ghost use Rattle.ir_trees.specs.Stands.{ProgramTree, StandsFor, by_handle};
ghost use Rattle.opt_inside.specs.Numbered.{NumbersInside, numbers_of};
ghost use Rattle.opt_inside.specs.reach.Edges.{HasLocalEdgesFrom};
ghost use Rattle.opt_inside.specs.reach.Starts.{IsStartIn};
ghost use Rattle.opt_trees.specs.Simplify.{StartingRegions};
ghost use Rattle.opt_chains.specs.Chained.{AreChains, StartsSomewhere, LeadsWhereJoinable};
ghost use Rattle.opt_chains.specs.NextBlocks.{HoldsOne, IsElsewhere};

use crate::chain_firsts::firsts;
use crate::chain_names::name_steps;
use crate::chain_steps::chain_steps;
use crate::merging::Join;
use crate::next_blocks::next_blocks;
use ir_program::{BasicBlock, Operation, Program, Ptr, Region};
use ir_trees::know_tree;
use opt_dialect::Meanings;
use opt_inside::reach::Start;
use opt_inside::{Inside, know_occurrences};
use std::alloc::{AllocError, Global};

/// Whether a block stands in a region.
fn stands_in<O, B>(program: &Program<O, B>, block: Ptr<BasicBlock>, region: Ptr<Region>) -> bool
    requires { IsSome (block_at program.now block) }
    ensures { IsTrue result ↔ StandsInRegion program.now block region }
{
    match program.parent_region(block) {
        Some(parent) => parent == region,
        None => false,
    }
}

/// Whether one of these blocks stands in a region.
fn holds_one<O, B>(program: &Program<O, B>, region: Ptr<Region>, blocks: &[Ptr<BasicBlock>]) -> bool
    requires { (b : Ptr BasicBlock) → Lists blocks.now b → IsSome (block_at program.now b) }
    ensures { IsTrue result ↔ HoldsOne program.now region blocks.now }
{
    for block in blocks {
        if stands_in(program, *block, region) {
            return true;
        }
    }
    false
}

/// Whether looking may come to these blocks: it doesn't begin at a region without any.
fn may_come<O, B>(program: &Program<O, B>, start: Start, blocks: &[Ptr<BasicBlock>]) -> bool
    requires { (b : Ptr BasicBlock) → Lists blocks.now b → IsSome (block_at program.now b) }
    ensures begins { result ≡ true → StartsSomewhere program.now start }
    ensures elsewhere { result ≡ false → IsElsewhere program.now start blocks.now }
{
    let Start::Region(region) = start else {
        return true;
    };
    if !holds_one(program, region, blocks) {
        return false;
    }
    // Each region stands in an operation.
    let _owner = program.parent_operation(region);
    true
}

/// The steps that join each chain of blocks below an operation at its first block, by which block, if any, can be joined
/// behind each. The time is linear in the number of blocks.
///
/// # Errors
/// There may be no memory.
fn joins_along<D: Meanings>(
    alloc: Global,
    program: &Program<D::Operation, D::Block>,
    op: Ptr<Operation>,
    _start: Start,
    inside: &Inside,
    next: &[Option<usize>],
) -> Result<Vec<Join>, AllocError>
    requires live { IsSome (operation_at program.now op) }
    requires edges { HasLocalEdgesFrom D.meaning.is_terminator program.now _start }
    requires numbered { NumbersInside program.now op (numbers_of inside.now) }
    requires begins { StartsSomewhere program.now _start }
    requires next { (p : StartingRegions by_handle) → IsStartIn program.now _start p
        → (t : ProgramTree D.Operation D.Block) → StandsFor program.now op t
        → LeadsWhereJoinable D.meaning p t inside.now.blocks.keys next.now }
    ensures { IfOk result (λ joins. (p : StartingRegions by_handle) → IsStartIn program.now _start p
        → (t : ProgramTree D.Operation D.Block) → StandsFor program.now op t
        → AreChains D.meaning p program.now t joins.items) }
{
    program.know_lists();
    know_occurrences(program, op);
    know_tree(program, op);
    let marks = firsts(alloc, next)?;
    let steps = chain_steps(alloc, next, marks.as_slice())?;
    name_steps::<D>(alloc, program, inside.blocks.as_slice(), steps.as_slice())
}

/// The steps that join each chain of blocks of visited SSA regions inside an operation at its first block, where looking
/// begins there. The time is linear in what is inside.
///
/// # Errors
/// There may be no memory.
pub fn find_joins<D: Meanings>(
    alloc: Global,
    program: &Program<D::Operation, D::Block>,
    op: Ptr<Operation>,
    start: Start,
    inside: &Inside,
) -> Result<Vec<Join>, AllocError>
    requires live { IsSome (operation_at program.now op) }
    requires edges { HasLocalEdgesFrom D.meaning.is_terminator program.now start }
    requires numbered { NumbersInside program.now op (numbers_of inside.now) }
    ensures chains { IfOk result (λ joins. (p : StartingRegions by_handle) → IsStartIn program.now start p
        → (t : ProgramTree D.Operation D.Block) → StandsFor program.now op t
        → AreChains D.meaning p program.now t joins.items) }
    ensures begins { IfOk result (λ joins. (joins.items ≡ []) ⊎ StartsSomewhere program.now start) }
{
    know_occurrences(program, op);
    know_tree(program, op);
    if !may_come(program, start, inside.blocks.as_slice()) {
        return Ok(Vec::new(alloc));
    }
    let next = next_blocks::<D>(alloc, program, op, start, inside)?;
    joins_along::<D>(alloc, program, op, start, inside, next.as_slice())
}
