//! Edits that make operations and blocks.
ghost use Rattle.std.specs.Prelude.{◌≡◌, IfOk, option_map};
ghost use Rattle.ir_names.specs.Identifier.{text_of};
ghost use Rattle.ir_core.specs.edits.MakingEdits.{BuildsNewOperation, BuildsNewBlock};

use crate::edits::name_lists::{are_known, blocks, name_live_blocks, name_live_values, values};
use crate::edits::{At, Entity, ValueAt};
use ir_context::{Context, CoreError, NewBlock, NewOperation};
use ir_names::{GrowError, Identifier, TypeHandle};
use ir_program::{BasicBlock, Operation, Ptr};
use ir_types::DialectTables;
use std::alloc::AllocError;

/// Makes an operation of a kind that comes from no source and has no attributes.
pub fn new_operation<D: DialectTables>(
    ctx: &mut Context<D>,
    made: &[Option<Entity>],
    kind: D::OpKind,
    result_types: &[TypeHandle],
    operands: &[ValueAt],
    successors: &[At<Ptr<BasicBlock>>],
    num_regions: usize,
) -> Result<Option<Entity>, CoreError>
    ensures { BuildsNewOperation D.nowhere ctx.old made.now kind result_types.now operands.now successors.now
        num_regions ctx.new result }
{
    if !are_known(ctx, result_types)
        || !name_live_values(ctx, made, operands)
        || !name_live_blocks(ctx, made, successors)
    {
        return Err(CoreError::EditNotAllowed);
    }
    let alloc = ctx.allocator();
    let Ok(operands) = values(alloc, ctx, made, operands) else {
        return Err(CoreError::Memory);
    };
    let Ok(successors) = blocks(alloc, ctx, made, successors) else {
        return Err(CoreError::Memory);
    };
    match Operation::new(
        alloc,
        ctx,
        kind,
        result_types,
        &operands,
        &successors,
        num_regions,
    ) {
        Ok(op) => Ok(Some(Entity::Operation(op))),
        Err(GrowError::Memory) => Err(CoreError::Memory),
        Err(GrowError::CounterFull) => Err(CoreError::CounterFull),
    }
}

/// Makes a block that comes from no source and has no attributes.
#[tactic(auto, using(crate::proofs::EditsLemmas::Makings::known_where))]
pub fn new_block<D: DialectTables>(
    ctx: &mut Context<D>,
    label: &Option<Identifier>,
    argument_types: &[TypeHandle],
) -> Result<Option<Entity>, CoreError>
    ensures { BuildsNewBlock D.nowhere ctx.old label.now argument_types.now ctx.new result }
{
    if !are_known(ctx, argument_types) {
        return Err(CoreError::EditNotAllowed);
    }
    let alloc = ctx.allocator();
    let label = copy_label(label)?;
    match BasicBlock::new(alloc, ctx, label, argument_types) {
        Ok(block) => Ok(Some(Entity::Block(block))),
        Err(GrowError::Memory) => Err(CoreError::Memory),
        Err(GrowError::CounterFull) => Err(CoreError::CounterFull),
    }
}

/// A label of the same text.
///
/// # Errors
/// Where there is no memory.
fn copy_label(label: &Option<Identifier>) -> Result<Option<Identifier>, AllocError>
    ensures { IfOk result (λ copy. option_map text_of copy ≡ option_map text_of label.now) }
{
    match label {
        Some(identifier) => Ok(Some(identifier.try_clone()?)),
        None => Ok(None),
    }
}
