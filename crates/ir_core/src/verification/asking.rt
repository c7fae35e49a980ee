//! The dialect's own tests, each asked in its turn.
ghost use Rattle.std.specs.Prelude.{◌≡◌, IsSome};
ghost use Rattle.ir_program.specs.Program.{operation_at, block_at, results_at, arguments_at};
ghost use Rattle.ir_program.specs.Lists.{IsLiveNode};
ghost use Rattle.ir_core.specs.verification.Tests.{NodeIsLive, tests_of_attributes, tests_of_types, tests_of_operation, tests_of_block, tests_of, tests_inside, operation_tests_of, operation_tests_inside};
ghost use Rattle.ir_core.specs.verification.Verified.{AnswersTests};

use crate::verification::Verifiers;
use crate::verification::nodes::nodes_inside;
use ir_context::{ArgumentCalls, BlockCalls, Context, OperationCalls, ResultCalls, ValueCalls};
use ir_names::AttributeDict;
use ir_program::{BasicBlock, IRNode, Operation, Ptr};
use ir_types::DialectTables;

/// The tests of attributes, in the order of the names.
pub(crate) fn ask_attributes<D: DialectTables, V: Verifiers<D>>(
    attributes: &AttributeDict<D>,
    ctx: &Context<D>,
    verifiers: &V,
) -> Result<(), V::Fault>
    ensures { AnswersTests (V.accepts verifiers.now ctx.now) (V.answers verifiers.now ctx.now)
        (tests_of_attributes attributes.now) result }
{
    for (_name, attr) in attributes.iter() {
        verifiers.verify_attr(attr, ctx)?;
    }
    Ok(())
}

/// The tests of the types of an operation's results.
fn ask_results<D: DialectTables, V: Verifiers<D>>(
    op: Ptr<Operation>,
    ctx: &Context<D>,
    verifiers: &V,
) -> Result<(), V::Fault>
    requires { IsSome (operation_at ctx.now.program op) }
    ensures { AnswersTests (V.accepts verifiers.now ctx.now) (V.answers verifiers.now ctx.now)
        (tests_of_types (results_at ctx.now.program op)) result }
{
    for i in 0..op.get_num_results(ctx) {
        let ty = op.get_result(ctx, i).get_type(ctx);
        verifiers.verify_type(ty, ctx)?;
    }
    Ok(())
}

/// The tests of the types of a block's arguments.
fn ask_arguments<D: DialectTables, V: Verifiers<D>>(
    block: Ptr<BasicBlock>,
    ctx: &Context<D>,
    verifiers: &V,
) -> Result<(), V::Fault>
    requires { IsSome (block_at ctx.now.program block) }
    ensures { AnswersTests (V.accepts verifiers.now ctx.now) (V.answers verifiers.now ctx.now)
        (tests_of_types (arguments_at ctx.now.program block)) result }
{
    for i in 0..block.get_num_arguments(ctx) {
        let ty = block.get_argument(ctx, i).get_type(ctx);
        verifiers.verify_type(ty, ctx)?;
    }
    Ok(())
}

/// The test of an operation, then those of its attributes, then those of its results' types.
fn ask_operation<D: DialectTables, V: Verifiers<D>>(
    op: Ptr<Operation>,
    ctx: &Context<D>,
    verifiers: &V,
) -> Result<(), V::Fault>
    requires { IsSome (operation_at ctx.now.program op) }
    ensures { AnswersTests (V.accepts verifiers.now ctx.now) (V.answers verifiers.now ctx.now)
        (tests_of_operation ctx.now.program op) result }
{
    verifiers.verify_op(op, ctx)?;
    let notes = op.deref(ctx);
    ask_attributes(&notes.attributes, ctx, verifiers)?;
    ask_results(op, ctx, verifiers)
}

/// The tests of a block's attributes, then those of its arguments' types.
fn ask_block<D: DialectTables, V: Verifiers<D>>(
    block: Ptr<BasicBlock>,
    ctx: &Context<D>,
    verifiers: &V,
) -> Result<(), V::Fault>
    requires { IsSome (block_at ctx.now.program block) }
    ensures { AnswersTests (V.accepts verifiers.now ctx.now) (V.answers verifiers.now ctx.now)
        (tests_of_block ctx.now.program block) result }
{
    let notes = block.deref(ctx);
    ask_attributes(&notes.attributes, ctx, verifiers)?;
    ask_arguments(block, ctx, verifiers)
}

/// All tests of an entity by itself, which is there.
fn ask_node<D: DialectTables, V: Verifiers<D>>(
    node: IRNode,
    ctx: &Context<D>,
    verifiers: &V,
) -> Result<(), V::Fault>
    ensures { NodeIsLive ctx.now.program node
        → AnswersTests (V.accepts verifiers.now ctx.now) (V.answers verifiers.now ctx.now)
        (tests_of ctx.now.program node) result }
{
    match node {
        IRNode::Operation(op) if op.is_live(ctx) => ask_operation(op, ctx, verifiers),
        IRNode::BasicBlock(block) if block.is_live(ctx) => ask_block(block, ctx, verifiers),
        _ => Ok(()),
    }
}

/// All tests of an entity and of what stands inside it.
pub(crate) fn ask_inside<D: DialectTables, V: Verifiers<D>>(
    outer: IRNode,
    ctx: &Context<D>,
    verifiers: &V,
) -> Result<(), V::Fault>
    requires { IsLiveNode ctx.now.program outer }
    ensures { AnswersTests (V.accepts verifiers.now ctx.now) (V.answers verifiers.now ctx.now)
        (tests_inside ctx.now.program outer) result }
{
    for node in nodes_inside(outer, ctx) {
        ask_node(node, ctx, verifiers)?;
    }
    Ok(())
}

/// The test of an entity, which is there, if it is an operation.
fn ask_if_operation<D: DialectTables, V: Verifiers<D>>(
    node: IRNode,
    ctx: &Context<D>,
    verifiers: &V,
) -> Result<(), V::Fault>
    ensures { NodeIsLive ctx.now.program node
        → AnswersTests (V.accepts verifiers.now ctx.now) (V.answers verifiers.now ctx.now)
        (operation_tests_of ctx.now.program node) result }
{
    match node {
        IRNode::Operation(op) if op.is_live(ctx) => verifiers.verify_op(op, ctx),
        _ => Ok(()),
    }
}

/// The tests of the operations that an entity is or that stand inside it.
pub(crate) fn ask_operations_inside<D: DialectTables, V: Verifiers<D>>(
    outer: IRNode,
    ctx: &Context<D>,
    verifiers: &V,
) -> Result<(), V::Fault>
    requires { IsLiveNode ctx.now.program outer }
    ensures { AnswersTests (V.accepts verifiers.now ctx.now) (V.answers verifiers.now ctx.now)
        (operation_tests_inside ctx.now.program outer) result }
{
    for node in nodes_inside(outer, ctx) {
        ask_if_operation(node, ctx, verifiers)?;
    }
    Ok(())
}
