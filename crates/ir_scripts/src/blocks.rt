//! Questions about blocks and regions.
use crate::edges::predecessors;
use crate::graphs::{ask_graph, shown};
use crate::names::Names;
use crate::operations::location_word;
use crate::texts::{names_in, names_of, number, places, plain, spelt, spelt_or_none};
use crate::tiny::Tiny;
use crate::verifying::flaw_of_block;
use ir_core::{
    BasicBlock, BlockCalls, BlockEdges, ContainsBlocks, ContainsOperations, Context, Named,
    Operation, PredecessorCalls, Ptr, Region, RegionCalls,
};
use std::alloc::{AllocError, Global};

/// The answer to a question about a block, or none where it is no question.
pub fn ask_block(
    alloc: Global,
    ctx: &Context<Tiny>,
    names: &Names,
    question: &str,
    block: Ptr<BasicBlock>,
) -> Result<Option<String>, AllocError> {
    if question == "deref" {
        return plain(
            alloc,
            if block.try_deref(ctx).is_ok() {
                "leads"
            } else {
                "dangles"
            },
        );
    }
    if !block.is_live(ctx) {
        return plain(alloc, "gone");
    }
    match question {
        "arguments" => names_in(alloc, names, block.arguments(alloc, ctx)),
        "operations" => names_in(alloc, names, operations(alloc, ctx, block)),
        "operations_backwards" => names_in(alloc, names, operations_backwards(alloc, ctx, block)),
        "succs" => names_in(alloc, names, block.succs(alloc, ctx)),
        "preds" => predecessors(alloc, ctx, names, block),
        "uses" => places(alloc, names, block.uses(alloc, ctx)),
        "num_preds" => number(alloc, block.num_preds(ctx)),
        _ => ask_names(alloc, ctx, question, block),
    }
}

/// The answer to a question about what a block is called, and about its record.
fn ask_names(
    alloc: Global,
    ctx: &Context<Tiny>,
    question: &str,
    block: Ptr<BasicBlock>,
) -> Result<Option<String>, AllocError> {
    if !block.is_live(ctx) {
        return plain(alloc, "gone");
    }
    match question {
        "id" => spelt(block.id(alloc, ctx)),
        "unique_name" => spelt(block.unique_name(alloc, ctx)),
        "given_name" => spelt_or_none(alloc, block.given_name(alloc, ctx)),
        "label" => match block.label(ctx) {
            Some(label) => plain(alloc, label.as_str()),
            None => plain(alloc, "none"),
        },
        "loc" => plain(alloc, location_word(block.loc(ctx))),
        "verify" => plain(alloc, flaw_of_block(ctx, block)),
        "shown" => shown(alloc, ctx, block),
        _ => Ok(None),
    }
}

/// The operations of a block, first to last.
fn operations(
    alloc: Global,
    ctx: &Context<Tiny>,
    block: Ptr<BasicBlock>,
) -> Result<Vec<Ptr<Operation>>, AllocError> {
    let mut operations = Vec::new(alloc);
    if block.is_live(ctx) {
        for op in block.iter(ctx) {
            operations.push(op)?;
        }
    }
    Ok(operations)
}

/// The operations of a block, last to first.
fn operations_backwards(
    alloc: Global,
    ctx: &Context<Tiny>,
    block: Ptr<BasicBlock>,
) -> Result<Vec<Ptr<Operation>>, AllocError> {
    let mut operations = Vec::new(alloc);
    if block.is_live(ctx) {
        for op in block.iter(ctx).rev() {
            operations.push(op)?;
        }
    }
    Ok(operations)
}

/// The answer to a question about a region, or none where it is no question.
pub fn ask_region(
    alloc: Global,
    ctx: &Context<Tiny>,
    names: &Names,
    question: &str,
    region: Ptr<Region>,
) -> Result<Option<String>, AllocError> {
    if !region.is_live(ctx) {
        return plain(alloc, "gone");
    }
    match question {
        "blocks" => names_in(alloc, names, blocks(alloc, ctx, region)),
        "blocks_backwards" => names_in(alloc, names, blocks_backwards(alloc, ctx, region)),
        "parent" => match region.get_parent_op(ctx) {
            Some(op) => names_of(alloc, names, &[op]),
            None => plain(alloc, "nowhere"),
        },
        _ => ask_graph(alloc, ctx, names, question, region),
    }
}

/// The blocks of a region, first to last.
fn blocks(
    alloc: Global,
    ctx: &Context<Tiny>,
    region: Ptr<Region>,
) -> Result<Vec<Ptr<BasicBlock>>, AllocError> {
    let mut blocks = Vec::new(alloc);
    if region.is_live(ctx) {
        for block in region.iter(ctx) {
            blocks.push(block)?;
        }
    }
    Ok(blocks)
}

/// The blocks of a region, last to first.
fn blocks_backwards(
    alloc: Global,
    ctx: &Context<Tiny>,
    region: Ptr<Region>,
) -> Result<Vec<Ptr<BasicBlock>>, AllocError> {
    let mut blocks = Vec::new(alloc);
    if region.is_live(ctx) {
        for block in region.iter(ctx).rev() {
            blocks.push(block)?;
        }
    }
    Ok(blocks)
}
