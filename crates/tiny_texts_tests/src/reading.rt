//! Reading a text, and printing what was read.
use ir_characters::Characters;
use ir_context::{Context, OperationCalls};
use ir_program::{Operation, Ptr};
use ir_tokens::TextFault;
use std::alloc::{AllocError, Global};
use text_printing::print_root;
use text_reading::top_level_parse;
use tiny_texts::{TinyText, let_go};

/// Reads a text into a context.
pub fn read(
    alloc: Global,
    ctx: &mut Context<TinyText>,
    text: &str,
) -> Result<Ptr<Operation>, TextFault> {
    let chars = Characters::from_str(alloc, text)?;
    top_level_parse(alloc, ctx, chars.as_text())
}

/// What is printed of an operation, or nothing where it isn't there.
pub fn printed(
    alloc: Global,
    ctx: &Context<TinyText>,
    root: Ptr<Operation>,
) -> Result<String, AllocError> {
    if root.is_live(ctx) {
        print_root(alloc, ctx, root)
    } else {
        Ok(String::new(alloc))
    }
}

/// What is printed of a text once it is read into a context, or its fault in words.
pub fn answer_in(
    alloc: Global,
    ctx: &mut Context<TinyText>,
    text: &str,
) -> Result<String, AllocError> {
    match read(alloc, ctx, text) {
        Ok(root) => printed(alloc, ctx, root),
        Err(fault) => format!(in alloc; "{fault}"),
    }
}

/// The same of a new context.
pub fn answer(alloc: Global, text: &str) -> Result<String, AllocError> {
    let mut ctx = Context::new(alloc);
    let answer = answer_in(alloc, &mut ctx, text);
    let_go(ctx);
    answer
}

/// Regions in one another, so many, with this text in the innermost.
pub fn nested(alloc: Global, depth: usize, inner: &str) -> Result<String, AllocError> {
    let mut text = String::from_str(alloc, "t.box {^b(): ")?;
    for _ in 1..depth {
        text.push_str("t.loop {^b(): ")?;
    }
    text.push_str(inner)?;
    for _ in 0..depth {
        text.push_str("}")?;
    }
    Ok(text)
}
