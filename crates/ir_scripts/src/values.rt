//! Questions about values, and about places that name values and blocks.
use crate::names::Names;
use crate::texts::{number, places, plain, spelt, spelt_or_none};
use crate::tiny::Tiny;
use ir_core::{
    BasicBlock, BlockCalls, Context, CoreError, Named, OperandPlace, Operation, PredecessorCalls,
    Ptr, SuccessorPlace, Use, UseCalls, Value, ValueCalls, ValueUses,
};
use std::alloc::{AllocError, Global};

/// The answer to a question about a value, or none where it is no question.
pub fn ask_value(
    alloc: Global,
    ctx: &Context<Tiny>,
    names: &Names,
    question: &str,
    value: Value,
) -> Result<Option<String>, AllocError> {
    if question == "index" {
        return index_or_refusal(alloc, index_of(ctx, value));
    }
    if !value.is_live(ctx) {
        return plain(alloc, "gone");
    }
    match question {
        "uses" => places(alloc, names, value.uses(alloc, ctx)),
        "num_uses" => number(alloc, value.num_uses(ctx)),
        "id" => spelt(value.id(alloc, ctx)),
        "unique_name" => spelt(value.unique_name(alloc, ctx)),
        "given_name" => spelt_or_none(alloc, value.given_name(alloc, ctx)),
        _ => Ok(None),
    }
}

/// An index, or the number of a refusal.
pub fn index_or_refusal(
    alloc: Global,
    outcome: Result<usize, u8>,
) -> Result<Option<String>, AllocError> {
    match outcome {
        Ok(index) => number(alloc, index),
        Err(refusal) => Ok(Some(format!(in alloc; "refusal {refusal}")?)),
    }
}

/// The index of a value at its definer, or the number of the refusal.
fn index_of(ctx: &Context<Tiny>, value: Value) -> Result<usize, u8> {
    match value.try_find_index(ctx) {
        Ok(index) => Ok(index),
        Err(error) => Err(CoreError::from(error).number()),
    }
}

/// The index of the use of a value, or the number of the refusal.
pub fn index_of_use(
    ctx: &Context<Tiny>,
    def: Value,
    user_op: Ptr<Operation>,
    index: usize,
) -> Result<usize, u8> {
    let place = Use {
        user_op,
        index,
        def,
    };
    match place.try_find_index(ctx) {
        Ok(index) => Ok(index),
        Err(error) => Err(CoreError::from(error).number()),
    }
}

/// The index of an edge to a block, or the number of the refusal.
pub fn index_of_edge(
    ctx: &Context<Tiny>,
    def: Ptr<BasicBlock>,
    user_op: Ptr<Operation>,
    index: usize,
) -> Result<usize, u8> {
    let place = Use {
        user_op,
        index,
        def,
    };
    match place.try_find_index(ctx) {
        Ok(index) => Ok(index),
        Err(error) => Err(CoreError::from(error).number()),
    }
}

/// The uses of a value at an index.
pub fn chosen_uses(
    alloc: Global,
    ctx: &Context<Tiny>,
    names: &Names,
    value: Value,
    index: usize,
) -> Result<Option<String>, AllocError> {
    if !value.is_live(ctx) {
        return plain(alloc, "gone");
    }
    let uses = value.chosen_uses(alloc, ctx, |place: &Use<Value>| place.index == index);
    places(alloc, names, uses)
}

/// The edges to a block at an index.
pub fn chosen_preds(
    alloc: Global,
    ctx: &Context<Tiny>,
    names: &Names,
    block: Ptr<BasicBlock>,
    index: usize,
) -> Result<Option<String>, AllocError> {
    if !block.is_live(ctx) {
        return plain(alloc, "gone");
    }
    let edges = block.chosen_preds(
        alloc,
        ctx,
        |place: &Use<Ptr<BasicBlock>>| place.index == index,
    );
    places(alloc, names, edges)
}

/// Another value in place of a value, at its uses at an index.
pub fn replace_chosen_uses(
    alloc: Global,
    ctx: &mut Context<Tiny>,
    value: Value,
    other: Value,
    index: usize,
) -> Result<Option<String>, AllocError> {
    if !value.is_live(ctx) || !other.is_live(ctx) {
        return plain(alloc, "gone");
    }
    value.replace_some_uses_with(alloc, ctx, |place: &Use<Value>| place.index == index, other)?;
    plain(alloc, "")
}

/// The edges to a block at an index lead to another.
pub fn retarget_chosen_preds(
    alloc: Global,
    ctx: &mut Context<Tiny>,
    block: Ptr<BasicBlock>,
    other: Ptr<BasicBlock>,
    index: usize,
) -> Result<Option<String>, AllocError> {
    if !block.is_live(ctx) || !other.is_live(ctx) {
        return plain(alloc, "gone");
    }
    let at_index = |place: &Use<Ptr<BasicBlock>>| place.index == index;
    block.retarget_some_preds_to(alloc, ctx, at_index, other)?;
    plain(alloc, "")
}
