//! Questions by the words of a line.
use crate::around::ask_around;
use crate::blocks::{ask_block, ask_region};
use crate::names::Names;
use crate::operations::ask_operation;
use crate::texts::plain;
use crate::tiny::Tiny;
use crate::values::{
    ask_value, chosen_preds, chosen_uses, index_of_edge, index_of_use, index_or_refusal,
    replace_chosen_uses, retarget_chosen_preds,
};
use ir_core::{Context, Entity};
use std::alloc::{AllocError, Global};

/// The answer to a question about what is there, or none where it is no question.
pub fn ask(
    alloc: Global,
    ctx: &Context<Tiny>,
    names: &Names,
    question: &str,
    entity: Entity,
) -> Result<Option<String>, AllocError> {
    match entity {
        Entity::Operation(op) => ask_operation(alloc, ctx, names, question, op),
        Entity::Block(block) => ask_block(alloc, ctx, names, question, block),
        Entity::Region(region) => ask_region(alloc, ctx, names, question, region),
        Entity::Value(value) => ask_value(alloc, ctx, names, question, value),
    }
}

/// The answer to a question with further arguments, or none where it is no question.
pub fn ask_about(
    alloc: Global,
    ctx: &Context<Tiny>,
    names: &Names,
    question: &str,
    entities: &[Entity],
    index: usize,
) -> Result<Option<String>, AllocError> {
    match (question, entities) {
        ("chosen_uses", [Entity::Value(value)]) => chosen_uses(alloc, ctx, names, *value, index),
        ("chosen_preds", [Entity::Block(block)]) => chosen_preds(alloc, ctx, names, *block, index),
        ("index_of_use", [Entity::Value(value), Entity::Operation(op)]) => {
            index_or_refusal(alloc, index_of_use(ctx, *value, *op, index))
        }
        ("index_of_edge", [Entity::Block(block), Entity::Operation(op)]) => {
            index_or_refusal(alloc, index_of_edge(ctx, *block, *op, index))
        }
        ("same_slot", [Entity::Operation(op), Entity::Operation(other)]) => {
            plain(
                alloc,
                if op.slot() == other.slot() {
                    "yes"
                } else {
                    "no"
                },
            )
        }
        ("same_slot", [Entity::Block(block), Entity::Block(other)]) => {
            plain(
                alloc,
                if block.slot() == other.slot() {
                    "yes"
                } else {
                    "no"
                },
            )
        }
        _ => ask_around(alloc, ctx, names, question, entities),
    }
}

/// What a call does that chooses by a predicate, or none where it is no such call.
pub fn call(
    alloc: Global,
    ctx: &mut Context<Tiny>,
    command: &str,
    entities: &[Entity],
    index: usize,
) -> Result<Option<String>, AllocError> {
    match (command, entities) {
        ("replace_chosen_uses", [Entity::Value(value), Entity::Value(other)]) => {
            replace_chosen_uses(alloc, ctx, *value, *other, index)
        }
        ("retarget_chosen_preds", [Entity::Block(block), Entity::Block(other)]) => {
            retarget_chosen_preds(alloc, ctx, *block, *other, index)
        }
        _ => Ok(None),
    }
}
