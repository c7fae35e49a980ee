//! What parts of operations and blocks there are.
use crate::argument::Argument;
use crate::tiny::Tiny;
use ir_core::{
    ArgumentCalls, At, BasicBlock, BlockCalls, Context, Entity, Operation, OperationCalls, Ptr,
    RegionAt, ResultCalls, ValueAt,
};

/// What an argument stands for that names no edit of a list, if it is there.
pub fn entity_of(ctx: &Context<Tiny>, argument: Argument) -> Option<Entity> {
    match argument {
        Argument::Operation(At::Handle(op)) => Some(Entity::Operation(op)),
        Argument::Block(At::Handle(block)) => Some(Entity::Block(block)),
        Argument::Region(RegionAt::Handle(region)) => Some(Entity::Region(region)),
        Argument::Region(RegionAt::RegionOf(At::Handle(op), index)) => region_of(ctx, op, index),
        Argument::Value(ValueAt::Handle(value)) => Some(Entity::Value(value)),
        Argument::Value(ValueAt::ResultOf(At::Handle(op), index)) => result_of(ctx, op, index),
        Argument::Value(ValueAt::ArgumentOf(At::Handle(block), index)) => {
            argument_of(ctx, block, index)
        }
        _ => None,
    }
}

/// The region of an operation at an index.
fn region_of(ctx: &Context<Tiny>, op: Ptr<Operation>, index: usize) -> Option<Entity> {
    if !op.is_live(ctx) || index >= op.num_regions(ctx) {
        return None;
    }
    Some(Entity::Region(op.get_region(ctx, index)))
}

/// The result of an operation at an index.
fn result_of(ctx: &Context<Tiny>, op: Ptr<Operation>, index: usize) -> Option<Entity> {
    if !op.is_live(ctx) || index >= op.get_num_results(ctx) {
        return None;
    }
    Some(Entity::Value(op.get_result(ctx, index)))
}

/// The argument of a block at an index.
fn argument_of(ctx: &Context<Tiny>, block: Ptr<BasicBlock>, index: usize) -> Option<Entity> {
    if !block.is_live(ctx) || index >= block.get_num_arguments(ctx) {
        return None;
    }
    Some(Entity::Value(block.get_argument(ctx, index)))
}
