//! What the optimisations make of texts.
use crate::asserting::same;
use crate::places::{Place, start_at, test_below, test_block, test_op, test_region};
use ir_opts::{
    IRStatus, OptError, Rewriter, Start, dce, merge_inside_block, merge_inside_op,
    merge_inside_region, remove_blocks_inside_block, remove_blocks_inside_op,
    remove_blocks_inside_region, sccp, simplify_cfg,
};
use ir_program::{Operation, Ptr};
use opt_tiny::{OneType, Tiny, Tree, Unread, let_go, read, written};
use std::alloc::{AllocError, Global};
use std::process::Abort;
use std::test::Fail;

/// An optimisation.
#[derive(Clone, Copy)]
pub enum Pass {
    /// Constant propagation.
    Sccp,
    /// Dead code elimination.
    Dce,
    /// Simplification of control flow.
    SimplifyCfg,
    /// Removal of blocks that no path reaches, from a place on.
    RemoveBlocks(Place),
    /// Joining of chains of blocks, from a place on.
    Merge(Place),
}

/// What an optimisation answers.
pub type Answer = Result<IRStatus, OptError>;

/// What an optimisation answered, and the program afterwards.
#[derive(Debug, Drop, PartialEq, Eq)]
pub struct Played {
    /// Its answer.
    pub answer: Answer,
    /// The program, as `written` writes it.
    pub text: String,
}

/// What is expected: an answer, and the program of a text.
pub fn expected(alloc: Global, answer: Answer, text: &str) -> Result<Played, Unread> {
    let mut ctx: Tree = Tree::with_types(alloc, OneType);
    let played = read_in(alloc, answer, text, &mut ctx);
    let_go(ctx);
    played
}

/// An answer and the program of a text, which is read into a context.
fn read_in(alloc: Global, answer: Answer, text: &str, ctx: &mut Tree) -> Result<Played, Unread> {
    let op = read(alloc, ctx, text)?;
    with_text(alloc, answer, ctx, op)
}

/// An answer and a program, as `written` writes it.
pub fn with_text(
    alloc: Global,
    answer: Answer,
    ctx: &Tree,
    op: Ptr<Operation>,
) -> Result<Played, Unread> {
    let text = written(alloc, ctx, op)?;
    Ok(Played { answer, text })
}

/// Removes blocks that no path reaches, from a place on.
fn remove_blocks(alloc: Global, start: Start, ctx: &mut Tree) -> Result<Answer, Unread> {
    let mut rewriter = Rewriter::new();
    Ok(match start {
        Start::Operation(op) => {
            test_op(alloc, ctx, op)?;
            remove_blocks_inside_op::<Tiny, OneType>(alloc, op, ctx, &mut rewriter)
        }
        Start::Block(block) => {
            test_block(alloc, ctx, block)?;
            remove_blocks_inside_block::<Tiny, OneType>(alloc, block, ctx, &mut rewriter)
        }
        Start::Region(region) => {
            test_region(alloc, ctx, region)?;
            remove_blocks_inside_region::<Tiny, OneType>(alloc, region, ctx, &mut rewriter)
        }
    })
}

/// Joins chains of blocks, from a place on.
fn merge(alloc: Global, start: Start, ctx: &mut Tree) -> Result<Answer, Unread> {
    let mut rewriter = Rewriter::new();
    Ok(match start {
        Start::Operation(op) => {
            test_op(alloc, ctx, op)?;
            merge_inside_op::<Tiny, OneType>(alloc, op, ctx, &mut rewriter)
        }
        Start::Block(block) => {
            test_block(alloc, ctx, block)?;
            merge_inside_block::<Tiny, OneType>(alloc, block, ctx, &mut rewriter)
        }
        Start::Region(region) => {
            test_region(alloc, ctx, region)?;
            merge_inside_region::<Tiny, OneType>(alloc, region, ctx, &mut rewriter)
        }
    })
}

/// Runs an optimisation where its conditions hold.
fn run(alloc: Global, pass: Pass, ctx: &mut Tree, op: Ptr<Operation>) -> Result<Answer, Unread> {
    test_below::<Tiny>(alloc, ctx, op)?;
    match pass {
        Pass::Sccp => Ok(sccp::<Tiny, OneType>(alloc, op, ctx)),
        Pass::Dce => Ok(dce::<Tiny, OneType>(alloc, op, ctx)),
        Pass::SimplifyCfg => Ok(simplify_cfg::<Tiny, OneType>(alloc, op, ctx)),
        Pass::RemoveBlocks(place) => {
            let start = start_at(ctx, op, place)?;
            remove_blocks(alloc, start, ctx)
        }
        Pass::Merge(place) => {
            let start = start_at(ctx, op, place)?;
            merge(alloc, start, ctx)
        }
    }
}

/// What an optimisation makes of the program of a text.
pub fn after(alloc: Global, pass: Pass, text: &str) -> Result<Played, Unread> {
    let mut ctx: Tree = Tree::with_types(alloc, OneType);
    let played = after_in(alloc, pass, text, &mut ctx);
    let_go(ctx);
    played
}

/// What an optimisation makes of the program of a text, which is read into a context.
fn after_in(alloc: Global, pass: Pass, text: &str, ctx: &mut Tree) -> Result<Played, Unread> {
    let op = read(alloc, ctx, text)?;
    let answer = run(alloc, pass, ctx, op)?;
    with_text(alloc, answer, ctx, op)
}

/// Tests what an optimisation answers of the program of a text, and what it makes of it.
pub fn test_after(
    rt: &impl Abort,
    alloc: Global,
    pass: Pass,
    text: &str,
    answer: Answer,
    program: &str,
) -> Result<(), Fail> {
    same(
        rt,
        after(alloc, pass, text)?,
        expected(alloc, answer, program)?,
    );
    Ok(())
}
