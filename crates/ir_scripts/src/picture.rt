//! All that can be seen of what has names.
use crate::asking::ask;
use crate::names::Names;
use crate::tiny::Tiny;
use ir_core::{Context, Entity};
use std::alloc::{AllocError, Global};
use std::fmt::Write;

/// The questions that are asked about everything.
const QUESTIONS: [&str; 12] = [
    "operands",
    "successors",
    "results",
    "regions",
    "parent",
    "uses",
    "num_uses",
    "arguments",
    "operations",
    "num_preds",
    "blocks",
    "index",
];

/// The answers to all questions about what has names.
pub fn picture(alloc: Global, ctx: &Context<Tiny>, names: &Names) -> Result<String, AllocError> {
    let mut text = String::new(alloc);
    for (name, entity) in &names.known {
        text.push_str(name)?;
        push_answers(&mut text, alloc, ctx, names, *entity)?;
    }
    Ok(text)
}

/// Adds the answers to all questions about an entity.
fn push_answers(
    text: &mut String,
    alloc: Global,
    ctx: &Context<Tiny>,
    names: &Names,
    entity: Entity,
) -> Result<(), AllocError> {
    for question in QUESTIONS {
        push_answer(text, question, ask(alloc, ctx, names, question, entity)?)?;
    }
    Ok(())
}

/// Adds a question with its answer, if there is one.
fn push_answer(
    text: &mut String,
    question: &str,
    answer: Option<String>,
) -> Result<(), AllocError> {
    match answer {
        Some(answer) => write!(text, " {question}: {answer};"),
        None => Ok(()),
    }
}
