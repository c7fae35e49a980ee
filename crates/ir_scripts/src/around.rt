//! Questions about what stands around operations and blocks, and about the order in a block.
use crate::markers::{Graph, Terminator};
use crate::names::Names;
use crate::texts::{Nameable, plain};
use crate::tiny::Tiny;
use ir_core::{BasicBlock, BlockCalls, Context, Entity, Operation, OperationCalls, Ptr, Region};
use ir_queries::{
    find_ancestor_block_of_block_in_region, find_ancestor_block_of_op_in_region,
    find_ancestor_of_op_interface, find_ancestor_of_op_type, find_ancestor_op_of_op_in_block,
    find_ancestor_op_of_op_in_region, strictly_precedes_in_block,
};
use std::alloc::{AllocError, Global};

/// The name of what was found.
fn name_of<T: Nameable>(
    alloc: Global,
    names: &Names,
    found: Option<T>,
) -> Result<Option<String>, AllocError> {
    match found {
        Some(item) => plain(alloc, names.word_of(item.entity())),
        None => plain(alloc, "none"),
    }
}

/// The answer to a question about what is around an operation, or none where it is no question.
pub fn ask_around_operation(
    alloc: Global,
    ctx: &Context<Tiny>,
    names: &Names,
    question: &str,
    op: Ptr<Operation>,
) -> Result<Option<String>, AllocError> {
    if !op.is_live(ctx) {
        return plain(alloc, "gone");
    }
    match question {
        "graph_around" => {
            name_of(
                alloc,
                names,
                find_ancestor_of_op_type::<Tiny, Graph>(ctx, op),
            )
        }
        "terminator_around" => {
            name_of(
                alloc,
                names,
                find_ancestor_of_op_interface::<Tiny, Terminator>(ctx, op),
            )
        }
        _ => Ok(None),
    }
}

/// The answer to a question about an operation and something else, or none where it is no question.
pub fn ask_around(
    alloc: Global,
    ctx: &Context<Tiny>,
    names: &Names,
    question: &str,
    entities: &[Entity],
) -> Result<Option<String>, AllocError> {
    match (question, entities) {
        ("operation_around", [Entity::Operation(op), Entity::Region(region)]) => {
            name_of(alloc, names, operation_in_region(ctx, *op, *region))
        }
        ("operation_around", [Entity::Operation(op), Entity::Block(block)]) => {
            name_of(alloc, names, operation_in_block(ctx, *op, *block))
        }
        ("block_around", [Entity::Operation(op), Entity::Region(region)]) => {
            name_of(alloc, names, block_of_operation(ctx, *op, *region))
        }
        ("block_around", [Entity::Block(block), Entity::Region(region)]) => {
            name_of(alloc, names, block_of_block(ctx, *block, *region))
        }
        ("precedes", [Entity::Operation(a), Entity::Operation(b)]) => {
            plain(alloc, if precedes(ctx, *a, *b) { "yes" } else { "no" })
        }
        _ => Ok(None),
    }
}

/// The operation around an operation in a region.
fn operation_in_region(
    ctx: &Context<Tiny>,
    op: Ptr<Operation>,
    region: Ptr<Region>,
) -> Option<Ptr<Operation>> {
    if !op.is_live(ctx) {
        return None;
    }
    find_ancestor_op_of_op_in_region(ctx, op, region)
}

/// The operation around an operation in a block.
fn operation_in_block(
    ctx: &Context<Tiny>,
    op: Ptr<Operation>,
    block: Ptr<BasicBlock>,
) -> Option<Ptr<Operation>> {
    if !op.is_live(ctx) {
        return None;
    }
    find_ancestor_op_of_op_in_block(ctx, op, block)
}

/// The block around an operation in a region.
fn block_of_operation(
    ctx: &Context<Tiny>,
    op: Ptr<Operation>,
    region: Ptr<Region>,
) -> Option<Ptr<BasicBlock>> {
    if !op.is_live(ctx) {
        return None;
    }
    find_ancestor_block_of_op_in_region(ctx, op, region)
}

/// The block around a block in a region.
fn block_of_block(
    ctx: &Context<Tiny>,
    block: Ptr<BasicBlock>,
    region: Ptr<Region>,
) -> Option<Ptr<BasicBlock>> {
    if !block.is_live(ctx) {
        return None;
    }
    find_ancestor_block_of_block_in_region(ctx, block, region)
}

/// Whether an operation stands before another in one block.
fn precedes(ctx: &Context<Tiny>, a: Ptr<Operation>, b: Ptr<Operation>) -> bool {
    a.is_live(ctx) && b.is_live(ctx) && strictly_precedes_in_block(ctx, a, b)
}
