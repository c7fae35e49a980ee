//! Where an operation is in the tree of a root.
ghost use Rattle.std.specs.Prelude.{◌≡◌, ◌↔◌, ◌+◌, IsTrue, Some, IfOk, IsSome, slice_get};
ghost use Rattle.ir_program.specs.Around.{StandsIn};
ghost use Rattle.ir_program.specs.Lists.{IsLiveNode, StandsInBlock, StandsInRegion, StandsInside, blocks_in, operations_in};
ghost use Rattle.ir_program.specs.Preorder.{nodes_in};
ghost use Rattle.ir_program.specs.Program.{operation_at};
ghost use Rattle.ir_program.specs.declared.handles.IRNode.{IRNode};
ghost use Rattle.ir_program.specs.declared.handles.IRNode.TheVariants.{Operation as OperationNode};
ghost use Rattle.kit_checks.specs.Located.{IsPlaceOf};

use crate::rule::RuleFault;
use ir_names::Place;
use ir_program::{BasicBlock, IRNode, Operation, Program, Ptr, Region};
use std::alloc::{AllocError, Global};

/// One more. No memory holds what has so many members that this is too large.
pub(crate) fn next(index: usize) -> Result<usize, AllocError>
    ensures { IfOk result (λ next. next ≡ index + 1) }
{
    match index.checked_add(1) {
        Some(next) => Ok(next),
        None => Err(AllocError),
    }
}

/// The index of an operation of a block.
fn operation_index<O, B>(
    program: &Program<O, B>,
    block: Ptr<BasicBlock>,
    op: Ptr<Operation>,
) -> Result<usize, RuleFault>
    requires { StandsInBlock program.now op block }
    ensures { IfOk result (λ index. slice_get (operations_in program.now block) index ≡ Some op) }
{
    let mut index = 0;
    for other in program.operations(block) {
        if other == op {
            return Ok(index);
        }
        index = next(index)?;
    }
    unreachable!()
}

/// The index of a block of a region.
fn block_index<O, B>(
    program: &Program<O, B>,
    region: Ptr<Region>,
    block: Ptr<BasicBlock>,
) -> Result<usize, RuleFault>
    requires { StandsInRegion program.now block region }
    ensures { IfOk result (λ index. slice_get (blocks_in program.now region) index ≡ Some block) }
{
    let mut index = 0;
    for other in program.blocks(region) {
        if other == block {
            return Ok(index);
        }
        index = next(index)?;
    }
    unreachable!()
}

/// The index of an entity among those that are in what it is in.
fn index_of<O, B>(program: &Program<O, B>, node: IRNode) -> Result<usize, RuleFault>
    requires live { IsLiveNode program.now node }
    requires held { (holder : IRNode) × StandsIn program.now node holder }
    ensures { IfOk result (λ index. (holder : IRNode) → StandsIn program.now node holder
        → slice_get (nodes_in program.now holder) index ≡ Some node) }
{
    match node {
        IRNode::Operation(op) => match program.parent_block(op) {
            Some(block) => operation_index(program, block, op),
            None => unreachable!(),
        },
        IRNode::BasicBlock(block) => match program.parent_region(block) {
            Some(region) => block_index(program, region, block),
            None => unreachable!(),
        },
        IRNode::Region(region) => Ok(program.region_index(region)),
    }
}

/// Whether an entity is this operation.
fn is_operation(node: IRNode, op: Ptr<Operation>) -> bool
    ensures { IsTrue result ↔ (node ≡ OperationNode op) }
{
    match node {
        IRNode::Operation(other) => other == op,
        IRNode::BasicBlock(_) | IRNode::Region(_) => false,
    }
}

/// The place of an operation inside a root: it goes up from the operation to the root.
///
/// # Errors
/// No memory.
pub fn place_of<O, B>(
    alloc: Global,
    program: &Program<O, B>,
    root: Ptr<Operation>,
    op: Ptr<Operation>,
) -> Result<Place, RuleFault>
    requires root { IsSome (operation_at program.now root) }
    requires inside { StandsInside program.now (OperationNode root) (OperationNode op) }
    ensures { IfOk result (λ place. IsPlaceOf program.now root op place.children.items) }
{
    program.know_lists();
    let mut children = Vec::new(alloc);
    for node in program.nodes_around(IRNode::Operation(op)) {
        if is_operation(node, root) {
            children.reverse();
            return Ok(Place { children });
        }
        let index = index_of(program, node)?;
        children.push(index)?;
    }
    unreachable!()
}
