//! Writing programs of the small dialect, with values and blocks named by their order.

use crate::reading::Tree;
use crate::tiny::Kind;
use indexmap::IndexSet;
use ir_context::{OperandCalls, OperationCalls, SuccessorCalls};
use ir_program::{BasicBlock, IRNode, Operation, Ptr, Value};
use std::alloc::{AllocError, Global};
use std::fmt::{Display, Write};

/// The word for a kind.
fn word_of(kind: Kind) -> &'static str {
    match kind {
        Kind::Box => "box",
        Kind::Pure => "pure",
        Kind::Def => "def",
        Kind::Constant => "const",
        Kind::Id => "id",
        Kind::Add => "add",
        Kind::Use => "use",
        Kind::Br => "br",
        Kind::Cond => "cond",
        Kind::Ret => "ret",
    }
}

/// The values and blocks of a program, in their order.
#[derive(Drop)]
struct Order {
    values: IndexSet<Value>,
    blocks: IndexSet<Ptr<BasicBlock>>,
}

impl Order {
    /// Notes the block and its arguments, or the results of the operation.
    fn note(&mut self, ctx: &Tree, node: IRNode) -> Result<(), AllocError> {
        let program = ctx.program();
        match node {
            IRNode::Operation(op) if program.has_operation(op) => {
                for i in 0..program.result_count(op) {
                    self.values.insert(program.result(op, i))?;
                }
            }
            IRNode::BasicBlock(block) if program.has_block(block) => {
                self.blocks.insert(block)?;
                for i in 0..program.argument_count(block) {
                    self.values.insert(program.argument(block, i))?;
                }
            }
            _ => {}
        }
        Ok(())
    }

    /// Notes what is in an operation.
    fn note_all(&mut self, ctx: &Tree, op: Ptr<Operation>) -> Result<(), AllocError> {
        let program = ctx.program();
        if !program.has_operation(op) {
            return Ok(());
        }
        for node in program.nodes_inside(IRNode::Operation(op)) {
            self.note(ctx, node)?;
        }
        Ok(())
    }

    /// Writes a value by its number.
    fn value(&self, text: &mut String, value: Value) -> Result<(), AllocError> {
        match self.values.get_index_of(&value) {
            Some(number) => write_number(text, " v", number),
            None => text.push_str(" ?"),
        }
    }

    /// Writes a block by its number.
    fn block(&self, text: &mut String, block: Ptr<BasicBlock>) -> Result<(), AllocError> {
        match self.blocks.get_index_of(&block) {
            Some(number) => write_number(text, " ^b", number),
            None => text.push_str(" ^?"),
        }
    }

    /// Writes a block with its arguments.
    fn header(
        &self,
        text: &mut String,
        ctx: &Tree,
        block: Ptr<BasicBlock>,
    ) -> Result<(), AllocError> {
        let program = ctx.program();
        if !program.has_block(block) {
            return Ok(());
        }
        self.block(text, block)?;
        for i in 0..program.argument_count(block) {
            self.value(text, program.argument(block, i))?;
        }
        Ok(())
    }

    /// Writes an operation: its kind, what it gives, what it takes and where it goes on to.
    fn operation(
        &self,
        text: &mut String,
        ctx: &Tree,
        op: Ptr<Operation>,
    ) -> Result<(), AllocError> {
        let program = ctx.program();
        if !program.has_operation(op) {
            return Ok(());
        }
        let payload = program.payload(op);
        text.push_str(" ")?;
        text.push_str(word_of(payload.kind))?;
        if payload.kind == Kind::Constant || payload.kind == Kind::Def {
            write_number(text, " ", payload.number)?;
        }
        if payload.kind == Kind::Cond {
            write_number(text, " /", payload.first)?;
        }
        for i in 0..program.operand_count(op) {
            self.value(text, program.operand(op, i))?;
        }
        for i in 0..program.successor_count(op) {
            self.block(text, program.successor(op, i))?;
        }
        for i in 0..program.result_count(op) {
            text.push_str(" ->")?;
            self.value(text, program.result(op, i))?;
        }
        Ok(())
    }

    /// Writes the line of a region, a block or an operation.
    fn line(&self, text: &mut String, ctx: &Tree, node: IRNode) -> Result<(), AllocError> {
        text.push('\n')?;
        write_dots(text, ctx, node)?;
        match node {
            IRNode::Operation(op) => self.operation(text, ctx, op),
            IRNode::BasicBlock(block) => self.header(text, ctx, block),
            IRNode::Region(_) => text.push_str(" {"),
        }
    }

    /// Writes the lines of what is in an operation.
    fn lines(&self, text: &mut String, ctx: &Tree, op: Ptr<Operation>) -> Result<(), AllocError> {
        let program = ctx.program();
        if !program.has_operation(op) {
            return Ok(());
        }
        for node in program.nodes_inside(IRNode::Operation(op)) {
            self.line(text, ctx, node)?;
        }
        Ok(())
    }
}

/// Writes a number behind a word.
fn write_number<N: Display + Drop>(
    text: &mut String,
    word: &str,
    number: N,
) -> Result<(), AllocError> {
    text.push_str(word)?;
    write!(text, "{number}").map_err(|_| AllocError)
}

/// Writes an operation with all that is in it: a line for each block and operation, behind as many dots as there are
/// entities around it; values and blocks by their order. So two programs have one text exactly where they are the same up
/// to handles.
///
/// # Errors
/// There may be no memory.
pub fn written(alloc: Global, ctx: &Tree, op: Ptr<Operation>) -> Result<String, AllocError> {
    let order = order_in(alloc, ctx, op)?;
    let mut text = String::new(alloc);
    order.lines(&mut text, ctx, op)?;
    Ok(text)
}

/// The values and blocks in an operation, in their order.
fn order_in(alloc: Global, ctx: &Tree, op: Ptr<Operation>) -> Result<Order, AllocError> {
    let mut order = Order {
        values: IndexSet::new(alloc),
        blocks: IndexSet::new(alloc),
    };
    order.note_all(ctx, op)?;
    Ok(order)
}

/// Writes a dot for each entity around this one, itself too.
fn write_dots(text: &mut String, ctx: &Tree, node: IRNode) -> Result<(), AllocError> {
    let program = ctx.program();
    let is_there = match node {
        IRNode::Operation(op) => program.has_operation(op),
        IRNode::BasicBlock(block) => program.has_block(block),
        IRNode::Region(region) => program.has_region(region),
    };
    if !is_there {
        return Ok(());
    }
    for _ in program.nodes_around(node) {
        text.push('.')?;
    }
    Ok(())
}
