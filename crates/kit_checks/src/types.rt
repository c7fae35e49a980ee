//! Tests of the types of results and of arguments.
ghost use Rattle.std.specs.Prelude.{◌≡◌, ◌↔◌, ◌<◌, IsSome, IsTrue, Some};
ghost use Rattle.ir_program.specs.Program.{arguments_at, argument_count, block_at, operation_at, type_in};
ghost use Rattle.kit_checks.specs.Passing.{OfBody, TypePasses};
ghost use Rattle.kit_checks.specs.Reading.{OfTree};
ghost use Rattle.kit_checks.specs.Words.{Every, types_of};
ghost use Rattle.kit_checks.specs.World.{world_of};

use crate::reading::{is_bit, is_value_type};
use ir_context::{Context, ResultCalls};
use ir_names::TypeHandle;
use ir_program::{BasicBlock, Operation, Ptr};
use kit::Kit;

/// What is asked of a type.
#[derive(Clone, Copy)]
pub(crate) enum TypeTest {
    /// Values can have it.
    Value,
    /// It is one bit without a sign.
    Bit,
    /// It is this type.
    Same(TypeHandle),
}

/// Whether a type passes a test.
pub(crate) fn type_passes(ctx: &Context<Kit>, test: TypeTest, ty: TypeHandle) -> bool
    ensures { IsTrue result ↔ TypePasses (world_of ctx.now) test ty }
{
    match test {
        TypeTest::Value => is_value_type(ctx, ty),
        TypeTest::Bit => is_bit(ctx, ty),
        TypeTest::Same(other) => ty == other,
    }
}

/// Whether the types of all results pass a test.
pub(crate) fn results_pass(ctx: &Context<Kit>, op: Ptr<Operation>, test: TypeTest) -> bool
    requires { IsSome (operation_at ctx.now.program op) }
    ensures { OfTree ctx.now.program op (λ u. IsTrue result ↔ Every (TypePasses (world_of ctx.now) test)
        (types_of u.head.results)) }
{
    for index in 0..op.get_num_results(ctx) {
        if !type_passes(ctx, test, op.get_type(ctx, index)) {
            return false;
        }
    }
    true
}

/// How many arguments a block has.
pub(crate) fn argument_count(ctx: &Context<Kit>, block: Ptr<BasicBlock>) -> usize
    requires { IsSome (block_at ctx.now.program block) }
    ensures { result ≡ argument_count ctx.now.program block }
{
    ctx.program().argument_count(block)
}

/// The type of the argument of a block at an index.
pub(crate) fn argument_type(ctx: &Context<Kit>, block: Ptr<BasicBlock>, index: usize) -> TypeHandle
    requires block { IsSome (block_at ctx.now.program block) }
    requires within { index < argument_count ctx.now.program block }
    ensures { type_in (arguments_at ctx.now.program block) index ≡ Some result }
{
    ctx.program().argument_type(block, index)
}

/// Whether the types of all arguments of a block pass a test.
pub(crate) fn arguments_pass(ctx: &Context<Kit>, block: Ptr<BasicBlock>, test: TypeTest) -> bool
    requires { IsSome (block_at ctx.now.program block) }
    ensures { OfBody ctx.now.program block (λ b. IsTrue result ↔ Every (TypePasses (world_of ctx.now) test)
        (types_of b.label.arguments)) }
{
    for index in 0..argument_count(ctx, block) {
        if !type_passes(ctx, test, argument_type(ctx, block, index)) {
            return false;
        }
    }
    true
}
