//! The blocks from which edges lead to a block.
ghost use Rattle.std.specs.Prelude.{◌≡◌, ℕ, Some, true, slice_get};
ghost use Rattle.ir_program.specs.Lists.{IsLinkedOperation};
ghost use Rattle.ir_program.specs.declared.handles.Ptr.{Ptr};
ghost use Rattle.ir_program.specs.declared.handles.BasicBlock.{BasicBlock};
ghost use Rattle.ir_program.specs.declared.handles.Use.{Use};

use crate::names::Names;
use crate::texts::{names_of, plain};
use crate::tiny::Tiny;
use ir_core::{
    BasicBlock, BlockCalls, BlockEdges, Context, OperationCalls, OperationLists, PredecessorCalls,
    Ptr, Use,
};
use std::alloc::{AllocError, Global};

/// Whether each of the operations of places stands in a block.
fn are_linked(ctx: &Context<Tiny>, places: &[Use<Ptr<BasicBlock>>]) -> bool
    ensures { result ≡ true → (i : ℕ) (u : Use (Ptr BasicBlock)) → slice_get places.now i ≡ Some u
        → IsLinkedOperation ctx.now.program u.user_op }
{
    for index in 0..places.len() {
        let user = places[index].user_op;
        if !user.is_live(ctx) {
            return false;
        }
        if !user.is_linked(ctx) {
            return false;
        }
    }
    true
}

/// The blocks from which edges lead to a block, as the whole list and one by one.
pub fn predecessors(
    alloc: Global,
    ctx: &Context<Tiny>,
    names: &Names,
    block: Ptr<BasicBlock>,
) -> Result<Option<String>, AllocError> {
    if !block.is_live(ctx) {
        return plain(alloc, "gone");
    }
    let places = block.uses(alloc, ctx)?;
    if !are_linked(ctx, &places) {
        return plain(
            alloc,
            "an edge leads out of an operation that stands nowhere",
        );
    }
    let predecessors = block.preds(alloc, ctx)?;
    for index in 0..block.num_preds(ctx) {
        if predecessors.get(index) != Some(&block.get_pred(ctx, index)) {
            return plain(alloc, "a predecessor differs");
        }
    }
    names_of(alloc, names, &predecessors)
}
