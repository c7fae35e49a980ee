//! What the names in a list of edits stand for.
ghost use Rattle.std.specs.Prelude.{◌≡◌, slice_get};
ghost use Rattle.ir_program.specs.Program.{results_at, arguments_at, value_in};
ghost use Rattle.ir_program.specs.Lists.{regions_in};
ghost use Rattle.ir_core.specs.edits.Naming.{made_by, operation_named, block_named, region_named, value_named};

use crate::edits::{At, Entity, RegionAt, ValueAt};
use ir_context::{TypeTable, TypedProgram};
use ir_program::{BasicBlock, Operation, Program, Ptr, Region, Value};

/// What the edit with this number made, if it is an earlier one that made something.
fn made_by(made: &[Option<Entity>], number: usize) -> Option<Entity>
    ensures { result ≡ made_by made.now number }
{
    match made.get(number) {
        Some(entity) => *entity,
        None => None,
    }
}

/// The operation that is named, if the name stands for one.
pub fn operation(made: &[Option<Entity>], at: At<Ptr<Operation>>) -> Option<Ptr<Operation>>
    ensures { result ≡ operation_named made.now at }
{
    match at {
        At::Handle(op) => Some(op),
        At::Made(number) => match made_by(made, number) {
            Some(Entity::Operation(op)) => Some(op),
            _ => None,
        },
    }
}

/// The block that is named, if the name stands for one.
pub fn block(made: &[Option<Entity>], at: At<Ptr<BasicBlock>>) -> Option<Ptr<BasicBlock>>
    ensures { result ≡ block_named made.now at }
{
    match at {
        At::Handle(block) => Some(block),
        At::Made(number) => match made_by(made, number) {
            Some(Entity::Block(block)) => Some(block),
            _ => None,
        },
    }
}

/// The result at an index of an operation's results, if it has so many.
fn result_of<O, B>(program: &Program<O, B>, op: Ptr<Operation>, index: usize) -> Option<Value>
    ensures { result ≡ value_in (results_at program.now op) index }
{
    if !program.has_operation(op) || index >= program.result_count(op) {
        return None;
    }
    Some(program.result(op, index))
}

/// The argument at an index of a block's arguments, if it has so many.
fn argument_of<O, B>(program: &Program<O, B>, block: Ptr<BasicBlock>, index: usize) -> Option<Value>
    ensures { result ≡ value_in (arguments_at program.now block) index }
{
    if !program.has_block(block) || index >= program.argument_count(block) {
        return None;
    }
    Some(program.argument(block, index))
}

/// The value that is named, if the name stands for one.
pub fn value_in_program<O, B>(
    program: &Program<O, B>,
    made: &[Option<Entity>],
    at: ValueAt,
) -> Option<Value>
    ensures { result ≡ value_named program.now made.now at }
{
    match at {
        ValueAt::Handle(value) => Some(value),
        ValueAt::Made(number) => match made_by(made, number) {
            Some(Entity::Value(value)) => Some(value),
            _ => None,
        },
        ValueAt::ResultOf(at, index) => result_of(program, operation(made, at)?, index),
        ValueAt::ArgumentOf(at, index) => argument_of(program, block(made, at)?, index),
    }
}

/// The value that is named in a context, if the name stands for one.
pub fn value<O, B, T: TypeTable>(
    ctx: &TypedProgram<O, B, T>,
    made: &[Option<Entity>],
    at: ValueAt,
) -> Option<Value>
    ensures { result ≡ value_named ctx.now.program made.now at }
{
    value_in_program(ctx.program(), made, at)
}

/// The region that is named, if the name stands for one.
pub fn region<O, B>(
    program: &Program<O, B>,
    made: &[Option<Entity>],
    at: RegionAt,
) -> Option<Ptr<Region>>
    ensures { result ≡ region_named program.now made.now at }
{
    match at {
        RegionAt::Handle(region) => Some(region),
        RegionAt::Made(number) => match made_by(made, number) {
            Some(Entity::Region(region)) => Some(region),
            _ => None,
        },
        RegionAt::RegionOf(at, index) => region_of(program, operation(made, at)?, index),
    }
}

/// The region at an index of an operation's regions, if it has so many.
fn region_of<O, B>(program: &Program<O, B>, op: Ptr<Operation>, index: usize) -> Option<Ptr<Region>>
    ensures { result ≡ slice_get (regions_in program.now op) index }
{
    if !program.has_operation(op) {
        return None;
    }
    program.region(op, index)
}
