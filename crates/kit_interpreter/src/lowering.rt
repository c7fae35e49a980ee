//! The functions of a module, made into a flat module.
ghost use Rattle.std.specs.Prelude.{◌≡◌, ℕ, ◌<◌, List, IsSome, IfSome, IfOk, Some, length, slice_get};
ghost use Rattle.ir_program.specs.Program.{operation_at, block_at};
ghost use Rattle.ir_program.specs.declared.handles.Ptr.{Ptr};
ghost use Rattle.ir_program.specs.declared.handles.Operation.{Operation};
ghost use Rattle.ir_program.specs.declared.handles.BasicBlock.{BasicBlock};
ghost use Rattle.kit_ops.specs.Keys.{constant_value, segment_sizes, callee};
ghost use Rattle.kit_flat.specs.Formed.{FormFits};
ghost use Rattle.opt_inside.specs.Numbered.{NumbersInside, numbers_of};
ghost use Rattle.kit_places.specs.Numbers.{block_with, operation_with};
ghost use Rattle.kit_places.specs.Store.{attribute_of, constant_form, conditional_form, call_form, form_at, function_named};
ghost use Rattle.kit_interpreter.specs.Lowering.{number_of, IsFunctionTable, IsFormOf, IsLowerable, IsBlockNumbered, FunctionsCanRun, CanRun, LowersOperation, LowersBlock, LowersFunction, LowersModule};

use crate::functions::Functions;
use crate::numbering::{
    argument_numbers, number_blocks, operand_numbers, result_numbers, successor_numbers,
};
use indexmap::IndexSet;
use ir_context::{Context, OperationCalls};
use ir_program::{BasicBlock, Operation, Ptr, Value};
use kit::Kit;
use kit_flat::{FlatBlock, FlatForm, FlatFunction, FlatModule, Instruction, instruction};
use kit_ops::{KitAttr, KitOp, keys};
use kit_places::{attribute, result_width};
use opt_inside::{Inside, NumberedList, number_inside};
use std::alloc::{AllocError, Global};

/// The form of a constant.
fn constant(ctx: &Context<Kit>, op: Ptr<Operation>) -> Option<FlatForm>
    requires { IsSome (operation_at ctx.now.program op) }
    ensures form { (handles : List (Ptr Operation)) → IsFormOf handles
        (constant_form (attribute_of ctx.now.program op constant_value)) result }
    ensures fits { (m : ℕ) → IfSome result (FormFits m) }
{
    match attribute(ctx, op, keys::CONSTANT_VALUE) {
        Some(KitAttr::Integer(integer)) => Some(FlatForm::Constant(integer.bits)),
        _ => None,
    }
}

/// The form of a conditional branch.
fn conditional(ctx: &Context<Kit>, op: Ptr<Operation>) -> Option<FlatForm>
    requires { IsSome (operation_at ctx.now.program op) }
    ensures form { (handles : List (Ptr Operation)) → IsFormOf handles
        (conditional_form (attribute_of ctx.now.program op segment_sizes)) result }
    ensures fits { (m : ℕ) → IfSome result (FormFits m) }
{
    match attribute(ctx, op, keys::SEGMENT_SIZES) {
        Some(KitAttr::SegmentSizes(sizes)) => match sizes.as_slice() {
            [_condition, first, _second] => Some(FlatForm::CondBr(*first as usize)),
            _ => None,
        },
        _ => None,
    }
}

/// The form of a call.
fn call(ctx: &Context<Kit>, functions: &Functions, op: Ptr<Operation>) -> Option<FlatForm>
    requires live { IsSome (operation_at ctx.now.program op) }
    requires table { IsFunctionTable ctx.now.program functions.now.outer functions.now.handles.keys
        (number_of functions.now.tables.tables.entries functions.now.outer functions.now.handles.keys) }
    ensures form { IsFormOf functions.now.handles.keys
        (call_form (function_named ctx.now.program functions.now.outer) (attribute_of ctx.now.program op callee))
        result }
    ensures fits { IfSome result (FormFits (length functions.now.handles.keys)) }
{
    match attribute(ctx, op, keys::CALLEE) {
        Some(KitAttr::Identifier(name)) => match functions.number_of(name.as_str()) {
            Some(number) => Some(FlatForm::Call(number)),
            None => None,
        },
        _ => None,
    }
}

/// The form of an operation, if the machine may execute it.
fn form(ctx: &Context<Kit>, functions: &Functions, op: Ptr<Operation>) -> Option<FlatForm>
    requires live { IsSome (operation_at ctx.now.program op) }
    requires table { IsFunctionTable ctx.now.program functions.now.outer functions.now.handles.keys
        (number_of functions.now.tables.tables.entries functions.now.outer functions.now.handles.keys) }
    ensures form { IsFormOf functions.now.handles.keys (form_at ctx.now functions.now.outer op) result }
    ensures fits { IfSome result (FormFits (length functions.now.handles.keys)) }
{
    match op.kind(ctx) {
        KitOp::Module => None,
        KitOp::Func => None,
        KitOp::Constant => constant(ctx, op),
        KitOp::ForwardRef => None,
        KitOp::Arithmetic(function) => match result_width(ctx, op) {
            Some(width) => Some(FlatForm::Calculate(function, width)),
            None => None,
        },
        KitOp::Comparison(function) => Some(FlatForm::Compare(function)),
        KitOp::Br => Some(FlatForm::Br),
        KitOp::CondBr => conditional(ctx, op),
        KitOp::Call => call(ctx, functions, op),
        KitOp::Emit => Some(FlatForm::Emit),
        KitOp::Return => Some(FlatForm::Return),
    }
}

/// An operation as an instruction, by the numbers of values and blocks.
fn lower_operation(
    alloc: Global,
    ctx: &Context<Kit>,
    functions: &Functions,
    values: &NumberedList<Value>,
    blocks: &IndexSet<Ptr<BasicBlock>>,
    op: Ptr<Operation>,
) -> Result<Instruction, AllocError>
    requires live { IsSome (operation_at ctx.now.program op) }
    requires table { IsFunctionTable ctx.now.program functions.now.outer functions.now.handles.keys
        (number_of functions.now.tables.tables.entries functions.now.outer functions.now.handles.keys) }
    requires numbered { IsLowerable ctx.now functions.now.outer values.now.keys blocks.now.keys op }
    ensures { IfOk result (LowersOperation ctx.now functions.now.outer values.now.keys blocks.now.keys
        functions.now.handles.keys op) }
{
    let shape = match form(ctx, functions, op) {
        Some(shape) => shape,
        None => unreachable!(),
    };
    let results = result_numbers(alloc, ctx.program(), values, op)?;
    let operands = operand_numbers(alloc, ctx.program(), values, op)?;
    let successors = successor_numbers(alloc, ctx.program(), blocks, op)?;
    match instruction(alloc, shape, results, operands, &successors)? {
        Some(lowered) => Ok(lowered),
        None => unreachable!(),
    }
}

/// A block with its instructions, by the numbers of values and blocks.
fn lower_block(
    alloc: Global,
    ctx: &Context<Kit>,
    functions: &Functions,
    values: &NumberedList<Value>,
    blocks: &IndexSet<Ptr<BasicBlock>>,
    block: Ptr<BasicBlock>,
) -> Result<FlatBlock, AllocError>
    requires live { IsSome (block_at ctx.now.program block) }
    requires table { IsFunctionTable ctx.now.program functions.now.outer functions.now.handles.keys
        (number_of functions.now.tables.tables.entries functions.now.outer functions.now.handles.keys) }
    requires numbered { IsBlockNumbered ctx.now functions.now.outer values.now.keys blocks.now.keys block }
    ensures { IfOk result (LowersBlock ctx.now functions.now.outer values.now.keys blocks.now.keys
        functions.now.handles.keys block) }
{
    ctx.program().know_lists();
    let arguments = argument_numbers(alloc, ctx.program(), values, block)?;
    let mut instructions = Vec::new(alloc);
    for op in ctx.program().operations(block) {
        instructions.push(lower_operation(alloc, ctx, functions, values, blocks, op)?)?;
    }
    Ok(FlatBlock {
        arguments,
        instructions,
    })
}

/// Blocks with their instructions, in order.
fn lower_blocks(
    alloc: Global,
    ctx: &Context<Kit>,
    functions: &Functions,
    values: &NumberedList<Value>,
    blocks: &IndexSet<Ptr<BasicBlock>>,
) -> Result<Vec<FlatBlock>, AllocError>
    requires live { (i : ℕ) (b : Ptr BasicBlock) → slice_get blocks.now.keys i ≡ Some b
        → IsSome (block_at ctx.now.program b) }
    requires table { IsFunctionTable ctx.now.program functions.now.outer functions.now.handles.keys
        (number_of functions.now.tables.tables.entries functions.now.outer functions.now.handles.keys) }
    requires numbered { (i : ℕ) (b : Ptr BasicBlock) → slice_get blocks.now.keys i ≡ Some b
        → IsBlockNumbered ctx.now functions.now.outer values.now.keys blocks.now.keys b }
    ensures len { IfOk result (λ lowered. length lowered.items ≡ length blocks.now.keys) }
    ensures each { IfOk result (λ lowered. (i : ℕ) (x : _) → slice_get lowered.items i ≡ Some x
        → LowersBlock ctx.now functions.now.outer values.now.keys blocks.now.keys functions.now.handles.keys
        (block_with blocks.now.keys i) x) }
{
    let mut lowered = Vec::new(alloc);
    for i in 0..blocks.len() {
        match blocks.get_index(i) {
            Some(block) => {
                lowered.push(lower_block(alloc, ctx, functions, values, blocks, *block)?)?
            }
            None => unreachable!(),
        }
    }
    Ok(lowered)
}

/// A function as a flat function, by the numbers of what is inside it.
fn lower_inside(
    alloc: Global,
    ctx: &Context<Kit>,
    functions: &Functions,
    op: Ptr<Operation>,
    inside: &Inside,
) -> Result<FlatFunction, AllocError>
    requires live { IsSome (operation_at ctx.now.program op) }
    requires table { IsFunctionTable ctx.now.program functions.now.outer functions.now.handles.keys
        (number_of functions.now.tables.tables.entries functions.now.outer functions.now.handles.keys) }
    requires can_run { CanRun ctx.now functions.now.outer op }
    requires numbers { NumbersInside ctx.now.program op (numbers_of inside.now) }
    ensures { IfOk result (LowersFunction ctx.now functions.now.outer functions.now.handles.keys op) }
{
    let program = ctx.program();
    program.know_lists();
    let region = match program.region(op, 0) {
        Some(region) => region,
        None => unreachable!(),
    };
    let blocks = number_blocks(alloc, program, region)?;
    let lowered = lower_blocks(alloc, ctx, functions, &inside.values, &blocks)?;
    Ok(FlatFunction {
        values: inside.values.len(),
        blocks: lowered,
    })
}

/// A function as a flat function.
fn lower_function(
    alloc: Global,
    ctx: &Context<Kit>,
    functions: &Functions,
    op: Ptr<Operation>,
) -> Result<FlatFunction, AllocError>
    requires live { IsSome (operation_at ctx.now.program op) }
    requires table { IsFunctionTable ctx.now.program functions.now.outer functions.now.handles.keys
        (number_of functions.now.tables.tables.entries functions.now.outer functions.now.handles.keys) }
    requires can_run { CanRun ctx.now functions.now.outer op }
    ensures { IfOk result (LowersFunction ctx.now functions.now.outer functions.now.handles.keys op) }
{
    let inside = number_inside(alloc, ctx.program(), op)?;
    lower_inside(alloc, ctx, functions, op, &inside)
}

/// The functions of a module as a flat module, each under its number.
pub(crate) fn lower_module(
    alloc: Global,
    ctx: &Context<Kit>,
    functions: &Functions,
) -> Result<FlatModule, AllocError>
    requires live { (i : ℕ) (f : Ptr Operation) → slice_get functions.now.handles.keys i ≡ Some f
        → IsSome (operation_at ctx.now.program f) }
    requires table { IsFunctionTable ctx.now.program functions.now.outer functions.now.handles.keys
        (number_of functions.now.tables.tables.entries functions.now.outer functions.now.handles.keys) }
    requires can_run { FunctionsCanRun ctx.now functions.now.outer }
    ensures { IfOk result (λ lowered. LowersModule ctx.now functions.now.outer functions.now.handles.keys
        lowered.functions.items) }
{
    let mut lowered = Vec::new(alloc);
    for i in 0..functions.handles.len() {
        match functions.handles.get_index(i) {
            Some(function) => lowered.push(lower_function(alloc, ctx, functions, *function)?)?,
            None => unreachable!(),
        }
    }
    Ok(FlatModule { functions: lowered })
}
