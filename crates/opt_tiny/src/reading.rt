//! Reading programs of the small dialect, a line for each block and operation:
//!
//!     box {
//!     ^b x
//!     y = id x
//!     br ^c y
//!     ^c z
//!     use z
//!     ret
//!     }
//!
//! A block is its name and its arguments. An operation is a kind with its operands, with `^` before each successor and what
//! is forwarded to it behind that. A name stands for one value or one block of the whole text, and may be mentioned before
//! it is defined.

use crate::tiny::{Bare, Kind, OneType, Payload};
use indexmap::IndexMap;
use ir_base::{GrowError, TypeHandle};
use ir_context::{
    ArgumentCalls, BlockCalls, BlockLists, OperandCalls, OperationCalls, OperationLists,
    RegionCalls, ResultCalls, SuccessorCalls, TypedProgram, ValueCalls,
};
use ir_program::{BasicBlock, IRNode, Operation, Ptr, Region, Value};
use std::alloc::{AllocError, AllocFailed, Global};

/// Programs of the small dialect.
pub type Tree = TypedProgram<Payload, Bare, OneType>;

/// Lets a program go. Crates above call this, so that it is proved once what that takes.
pub fn let_go(_ctx: Tree) {}

/// No memory, or a text that says no program.
#[derive(Clone, Copy, Debug, PartialEq, Eq)]
pub enum Unread {
    /// There is no memory.
    Memory,
    /// The text says no program.
    Text,
}

impl From<AllocError> for Unread {
    fn from(_error: AllocError) -> Unread {
        Unread::Memory
    }
}

impl<T: Drop> From<AllocFailed<T>> for Unread {
    fn from(_error: AllocFailed<T>) -> Unread {
        Unread::Memory
    }
}

impl From<GrowError> for Unread {
    fn from(_error: GrowError) -> Unread {
        Unread::Memory
    }
}

/// What an operation mentions: values, and blocks.
#[derive(Drop)]
struct Mentions<'a> {
    op: Ptr<Operation>,
    words: Vec<&'a str>,
}

/// A text that is being read: what is open, the innermost last, and what has names.
#[derive(Drop)]
struct Reader<'a> {
    alloc: Global,
    regions: Vec<Ptr<Region>>,
    blocks: Vec<Option<Ptr<BasicBlock>>>,
    values: IndexMap<&'a str, Value>,
    labels: IndexMap<&'a str, Ptr<BasicBlock>>,
    mentions: Vec<Mentions<'a>>,
    root: Option<Ptr<Operation>>,
}

/// The kind that a word names.
fn kind_of(word: &str) -> Option<Kind> {
    match word {
        "box" => Some(Kind::Box),
        "pure" => Some(Kind::Pure),
        "def" => Some(Kind::Def),
        "const" => Some(Kind::Constant),
        "id" => Some(Kind::Id),
        "add" => Some(Kind::Add),
        "use" => Some(Kind::Use),
        "br" => Some(Kind::Br),
        "cond" => Some(Kind::Cond),
        "ret" => Some(Kind::Ret),
        _ => None,
    }
}

/// How many of the words are operands that are forwarded to the first successor.
fn forwarded_first(words: &[&str]) -> usize {
    let mut successors = 0u32;
    let mut count = 0usize;
    for word in words {
        if word.starts_with('^') {
            successors = successors.saturating_add(1);
        } else if successors == 1 {
            count = count.saturating_add(1);
        }
    }
    count
}

/// Reads a program, in a context of its own. Answers the context and the operation.
///
/// # Errors
/// Without memory, or where the text says no program.
pub fn read(alloc: Global, ctx: &mut Tree, text: &str) -> Result<Ptr<Operation>, Unread> {
    let mut reader = Reader::new(alloc);
    reader.text(ctx, text)
}

impl<'a> Reader<'a> {
    /// Nothing is read.
    fn new(alloc: Global) -> Reader<'a> {
        Reader {
            alloc,
            regions: Vec::new(alloc),
            blocks: Vec::new(alloc),
            values: IndexMap::new(alloc),
            labels: IndexMap::new(alloc),
            mentions: Vec::new(alloc),
            root: None,
        }
    }

    /// Reads a text, and answers its operation.
    fn text(&mut self, ctx: &mut Tree, text: &'a str) -> Result<Ptr<Operation>, Unread> {
        for line in text.lines() {
            self.line(ctx, line.trim())?;
        }
        self.link(ctx)?;
        self.root.ok_or(Unread::Text)
    }

    /// Reads a line.
    fn line(&mut self, ctx: &mut Tree, line: &'a str) -> Result<(), Unread> {
        let words: Vec<&'a str> = line.split_whitespace().collect(self.alloc)?;
        self.words(ctx, &words)
    }

    /// Ends what is open.
    fn close(&mut self) -> Result<(), Unread> {
        self.regions.pop();
        self.blocks.pop();
        Ok(())
    }

    /// Reads the words of a line.
    fn words(&mut self, ctx: &mut Tree, words: &[&'a str]) -> Result<(), Unread> {
        match words {
            [] => Ok(()),
            ["}"] => self.close(),
            [label, arguments @ ..] if label.starts_with('^') => self.block(ctx, label, arguments),
            [result, "=", kind, operands @ ..] => self.operation(ctx, Some(result), kind, operands),
            [kind, operands @ ..] => self.operation(ctx, None, kind, operands),
        }
    }

    /// Makes a block in the innermost region.
    fn block(
        &mut self,
        ctx: &mut Tree,
        label: &'a str,
        arguments: &[&'a str],
    ) -> Result<(), Unread> {
        let region = *self.regions.last().ok_or(Unread::Text)?;
        let block = ctx.new_block(self.alloc, Bare, &[])?;
        append_block(ctx, region, block)?;
        for word in arguments {
            let item = new_argument(ctx, self.alloc, block)?;
            self.values.insert(word, item)?;
        }
        self.labels.insert(label, block)?;
        self.blocks.pop();
        self.blocks.push(Some(block))?;
        Ok(())
    }

    /// Makes an operation in the innermost block, or the root.
    fn operation(
        &mut self,
        ctx: &mut Tree,
        defined: Option<&'a str>,
        kind: &str,
        words: &[&'a str],
    ) -> Result<(), Unread> {
        let kind = kind_of(kind).ok_or(Unread::Text)?;
        let holds = words.last() == Some(&"{");
        let first = forwarded_first(words);
        let number = words
            .first()
            .and_then(|word| word.parse().ok())
            .unwrap_or(0);
        let payload = Payload {
            kind,
            number,
            first,
        };
        let types = [TypeHandle::new(0)];
        let types = &types[..usize::from(defined.is_some())];
        let op = ctx.new_operation(self.alloc, payload, types, &[], &[], usize::from(holds))?;
        if let Some(word) = defined {
            let item = result_of(ctx, op)?;
            self.values.insert(word, item)?;
        }
        match self.blocks.last() {
            Some(Some(block)) => append_operation(ctx, *block, op)?,
            _ => self.root = Some(op),
        }
        if holds {
            self.regions.push(region_of(ctx, op)?)?;
            self.blocks.push(None)?;
        }
        self.mentioned(op, words)
    }

    /// Keeps what an operation mentions.
    fn mentioned(&mut self, op: Ptr<Operation>, words: &[&'a str]) -> Result<(), Unread> {
        let words = Vec::from_slice(self.alloc, words)?;
        self.mentions.push(Mentions { op, words })?;
        Ok(())
    }

    /// Gives each operation what it mentions, once all is there.
    fn link(&self, ctx: &mut Tree) -> Result<(), Unread> {
        for mentions in &self.mentions {
            for word in &mentions.words {
                self.mention(ctx, mentions.op, word)?;
            }
        }
        Ok(())
    }

    /// Gives an operation a successor or an operand. A number and `{` are none.
    fn mention(&self, ctx: &mut Tree, op: Ptr<Operation>, word: &str) -> Result<(), Unread> {
        if word == "{" || word.parse::<u64>().is_ok() {
            return Ok(());
        }
        if let Some(block) = self.labels.get(word) {
            if !op.is_live(ctx) || !block.is_live(ctx) {
                return Err(Unread::Text);
            }
            return Ok(op.push_successor(self.alloc, ctx, *block)?);
        }
        let value = *self.values.get(word).ok_or(Unread::Text)?;
        if !op.is_live(ctx) || !value.is_live(ctx) {
            return Err(Unread::Text);
        }
        Ok(op.push_operand(self.alloc, ctx, value)?)
    }
}

/// Puts a block at the end of a region.
fn append_block(ctx: &mut Tree, region: Ptr<Region>, block: Ptr<BasicBlock>) -> Result<(), Unread> {
    if !region.is_live(ctx) || !block.is_live(ctx) || block.is_linked(ctx) {
        return Err(Unread::Text);
    }
    if ctx.is_inside(IRNode::Region(region), IRNode::BasicBlock(block)) {
        return Err(Unread::Text);
    }
    block.insert_at_back(ctx, region);
    Ok(())
}

/// Puts an operation at the end of a block.
fn append_operation(
    ctx: &mut Tree,
    block: Ptr<BasicBlock>,
    op: Ptr<Operation>,
) -> Result<(), Unread> {
    if !op.is_live(ctx) || !block.is_live(ctx) || op.is_linked(ctx) {
        return Err(Unread::Text);
    }
    if ctx.is_inside(IRNode::BasicBlock(block), IRNode::Operation(op)) {
        return Err(Unread::Text);
    }
    op.insert_at_back(ctx, block);
    Ok(())
}

/// A new argument of a block, behind its others.
fn new_argument(ctx: &mut Tree, alloc: Global, block: Ptr<BasicBlock>) -> Result<Value, Unread> {
    if !block.is_live(ctx) {
        return Err(Unread::Text);
    }
    Ok(block.push_argument(alloc, ctx, TypeHandle::new(0))?)
}

/// The first result of an operation.
fn result_of(ctx: &Tree, op: Ptr<Operation>) -> Result<Value, Unread> {
    if !op.is_live(ctx) || op.get_num_results(ctx) == 0 {
        return Err(Unread::Text);
    }
    Ok(op.get_result(ctx, 0))
}

/// The first region of an operation.
fn region_of(ctx: &Tree, op: Ptr<Operation>) -> Result<Ptr<Region>, Unread> {
    if !op.is_live(ctx) || op.num_regions(ctx) == 0 {
        return Err(Unread::Text);
    }
    Ok(op.get_region(ctx, 0))
}
