//! Questions about operations.
use crate::around::ask_around_operation;
use crate::names::Names;
use crate::texts::{names_in, names_of, number, places, plain, type_words};
use crate::tiny::{Tiny, TinyLocation, TinyOp};
use crate::verifying::flaw_of_operation;
use ir_core::{Context, Operation, OperationCalls, OperationRows, Ptr};
use std::alloc::{AllocError, Global};

/// The answer to a question about an operation, or none where it is no question.
pub fn ask_operation(
    alloc: Global,
    ctx: &Context<Tiny>,
    names: &Names,
    question: &str,
    op: Ptr<Operation>,
) -> Result<Option<String>, AllocError> {
    if question == "deref" {
        return plain(
            alloc,
            if op.try_deref(ctx).is_ok() {
                "leads"
            } else {
                "dangles"
            },
        );
    }
    if !op.is_live(ctx) {
        return plain(alloc, "gone");
    }
    match question {
        "operands" => names_in(alloc, names, op.operands(alloc, ctx)),
        "successors" => names_in(alloc, names, op.successors(alloc, ctx)),
        "results" => names_in(alloc, names, op.results(alloc, ctx)),
        "regions" => names_in(alloc, names, op.regions(alloc, ctx)),
        "operand_types" => type_words(alloc, names, op.operand_types(alloc, ctx)),
        "result_types" => type_words(alloc, names, op.result_types(alloc, ctx)),
        _ => ask_uses(alloc, ctx, names, question, op),
    }
}

/// The answer to a question about uses.
fn ask_uses(
    alloc: Global,
    ctx: &Context<Tiny>,
    names: &Names,
    question: &str,
    op: Ptr<Operation>,
) -> Result<Option<String>, AllocError> {
    if !op.is_live(ctx) {
        return plain(alloc, "gone");
    }
    match question {
        "operands_as_uses" => places(alloc, names, op.operands_as_uses(alloc, ctx)),
        "successors_as_uses" => places(alloc, names, op.successors_as_uses(alloc, ctx)),
        "uses" => places(alloc, names, op.uses(alloc, ctx)),
        "num_uses" => number(alloc, op.num_uses(ctx)),
        _ => ask_records(alloc, ctx, names, question, op),
    }
}

/// The answer to a question about its place and its record.
fn ask_records(
    alloc: Global,
    ctx: &Context<Tiny>,
    names: &Names,
    question: &str,
    op: Ptr<Operation>,
) -> Result<Option<String>, AllocError> {
    if !op.is_live(ctx) {
        return plain(alloc, "gone");
    }
    match question {
        "parent" => match op.get_parent_block(ctx) {
            Some(block) => names_of(alloc, names, &[block]),
            None => plain(alloc, "nowhere"),
        },
        "kind" => plain(alloc, kind_word(op.kind(ctx))),
        "loc" => plain(alloc, location_word(op.loc(ctx))),
        "num_attributes" => number(alloc, op.deref(ctx).attributes.len()),
        "verify" => plain(alloc, flaw_of_operation(ctx, op)),
        _ => ask_around_operation(alloc, ctx, names, question, op),
    }
}

/// The word for a kind.
fn kind_word(kind: TinyOp) -> &'static str {
    match kind {
        TinyOp::Def => "def",
        TinyOp::Jump => "jump",
        TinyOp::Graph => "graph",
    }
}

/// The word for a location.
pub fn location_word(loc: &TinyLocation) -> &'static str {
    match loc {
        TinyLocation::Unknown => "unknown",
        TinyLocation::Line(_) => "line",
    }
}
