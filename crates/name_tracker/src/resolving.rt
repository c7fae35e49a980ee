//! What stood in for a value or a block, once that is there.
ghost use Rattle.std.specs.Prelude.{◌≡◌, ◌≢◌, IsSome};
ghost use Rattle.ir_program.specs.Program.{block_at, IsLiveValue};
ghost use Rattle.ir_program.specs.Uses.{IsUsed, HasPredecessor};
ghost use Rattle.ir_program.specs.declared.handles.BasicBlock.{BasicBlock};
ghost use Rattle.ir_program.specs.declared.handles.DefiningEntity.TheVariants.{Op as ByOp};
ghost use Rattle.ir_program.specs.declared.handles.Ptr.{Ptr};
ghost use Rattle.ir_program.specs.declared.handles.Value.{Value};
ghost use Rattle.name_tracker.specs.Resolving.{DefinerGoes, BlockGoes, ResolvesValue, ResolvesLabel};

use ir_context::{
    BlockErasing, OperationCalls, OperationErasing, PredecessorCalls, TypeTable, TypedProgram,
    UseCalls, ValueCalls,
};
use ir_program::{BasicBlock, IRNode, Operation, Ptr, Value};
use std::alloc::Global;

/// Erases an operation that is there, if nothing outside it names what is in it.
fn erase_operation<O: Drop, B: Drop, T: TypeTable>(
    ctx: &mut TypedProgram<O, B, T>,
    op: Ptr<Operation>,
)
    ensures goes { DefinerGoes ctx.old.program ctx.new.program (ByOp op) }
    ensures unused { (v : Value) → (IsUsed ctx.old.program v → ⊥) → IsUsed ctx.new.program v → ⊥ }
    ensures types { ctx.new.types ≡ ctx.old.types }
{
    if op.is_live(ctx) && ctx.can_erase(IRNode::Operation(op)) {
        op.erase(ctx);
    }
}

/// Erases a block if nothing outside it names what is in it.
fn erase_block<O: Drop, B: Drop, T: TypeTable>(
    ctx: &mut TypedProgram<O, B, T>,
    block: Ptr<BasicBlock>,
)
    requires block { IsSome (block_at ctx.old.program block) }
    ensures goes { BlockGoes ctx.old.program ctx.new.program block }
    ensures unused { (b : Ptr BasicBlock) → (HasPredecessor ctx.old.program b → ⊥) → HasPredecessor ctx.new.program b → ⊥ }
    ensures types { ctx.new.types ≡ ctx.old.types }
{
    if ctx.can_erase(IRNode::BasicBlock(block)) {
        block.erase(ctx);
    }
}

/// Puts a value in place of each use of what stood in for it. The operation that defined what stood in goes, if nothing outside it names what
/// is in it and the value is none of its own. No memory is asked for.
pub fn resolve_value<O: Drop, B: Drop, T: TypeTable>(
    alloc: Global,
    ctx: &mut TypedProgram<O, B, T>,
    stand_in: Value,
    value: Value,
)
    requires stand_in { IsLiveValue ctx.old.program stand_in }
    requires value { IsLiveValue ctx.old.program value }
    ensures resolved { ResolvesValue ctx.old.program ctx.new.program stand_in value }
    ensures unused { stand_in ≢ value → IsUsed ctx.new.program stand_in → ⊥ }
    ensures types { ctx.new.types ≡ ctx.old.types }
{
    if stand_in.replace_all_uses_with(alloc, ctx, value).is_err() {
        unreachable!()
    }
    if stand_in.definer() == value.definer() {
        return;
    }
    if let Some(op) = stand_in.defining_op() {
        erase_operation(ctx, op);
    }
}

/// Makes each edge to what stood in for a block lead to the block. What stood in goes, if nothing outside it names what is in it. No memory is
/// asked for.
pub fn resolve_label<O: Drop, B: Drop, T: TypeTable>(
    alloc: Global,
    ctx: &mut TypedProgram<O, B, T>,
    stand_in: Ptr<BasicBlock>,
    block: Ptr<BasicBlock>,
)
    requires stand_in { IsSome (block_at ctx.old.program stand_in) }
    requires block { IsSome (block_at ctx.old.program block) }
    ensures resolved { ResolvesLabel ctx.old.program ctx.new.program stand_in block }
    ensures unused { stand_in ≢ block → HasPredecessor ctx.new.program stand_in → ⊥ }
    ensures types { ctx.new.types ≡ ctx.old.types }
{
    if stand_in.retarget_all_preds_to(alloc, ctx, block).is_err() {
        unreachable!()
    }
    if stand_in != block {
        erase_block(ctx, stand_in);
    }
}
