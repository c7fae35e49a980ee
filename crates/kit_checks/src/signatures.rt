//! The types of functions: what they ask of arguments and of operands.
ghost use Rattle.std.specs.Prelude.{◌≡◌, ◌↔◌, IfSome, IsSome, IsTrue, option_copied};
ghost use Rattle.ir_program.specs.Program.{block_at, operation_at};
ghost use Rattle.kit_checks.specs.Passing.{OfBody};
ghost use Rattle.kit_checks.specs.Reading.{IsEntryOrNone, IsInRegionOfFunction, IsTypedFunction, OfSite, OfTree, OfTrees, ReturnsTo, TakesInputs};
ghost use Rattle.kit_checks.specs.Rules.{HasFunctionBody, ReturnsFit};
ghost use Rattle.kit_checks.specs.Words.{Every, HaveTypes, IsInteger, signature, types_of};
ghost use Rattle.kit_checks.specs.World.{world_of};
ghost use Rattle.kit_ops.specs.declared.kinds.KitOp.TheVariants.{Return};

use crate::operands::operand_type;
use crate::reading::{function_type, is_function, is_integer, kind_of, type_under};
use crate::sites::{is_in_function, owner_of};
use crate::types::{TypeTest, argument_count, argument_type, type_passes};
use ir_context::{Context, OperandCalls};
use ir_names::TypeHandle;
use ir_program::{BasicBlock, Operation, Program, Ptr};
use kit::Kit;
use kit_ops::{FunctionType, KitOp, keys};

/// The function type that an operation says it has.
fn signature<'a>(ctx: &'a Context<Kit>, op: Ptr<Operation>) -> Option<&'a FunctionType>
    requires { IsSome (operation_at ctx.now.program op) }
    ensures { OfTree ctx.now.program op (λ u. signature (world_of ctx.now) u ≡ option_copied result) }
{
    match type_under(ctx, op, keys::FUNCTION_TYPE) {
        Some(ty) => function_type(ctx, ty),
        None => None,
    }
}

/// Whether all types are integer types.
fn are_integers(ctx: &Context<Kit>, types: &[TypeHandle]) -> bool
    ensures { IsTrue result ↔ Every (IsInteger (world_of ctx.now)) types.now }
{
    for ty in types {
        if !is_integer(ctx, *ty) {
            return false;
        }
    }
    true
}

/// Whether the arguments of a block have these types, in number and order.
fn arguments_are(ctx: &Context<Kit>, block: Ptr<BasicBlock>, types: &[TypeHandle]) -> bool
    requires { IsSome (block_at ctx.now.program block) }
    ensures { OfBody ctx.now.program block (λ b. IsTrue result ↔ (types_of b.label.arguments ≡ types.now)) }
{
    if argument_count(ctx, block) != types.len() {
        return false;
    }
    for (index, ty) in types.iter().enumerate() {
        if !type_passes(ctx, TypeTest::Same(*ty), argument_type(ctx, block, index)) {
            return false;
        }
    }
    true
}

/// Whether the operands of an operation have these types, in number and order.
pub fn operands_are(ctx: &Context<Kit>, op: Ptr<Operation>, types: &[TypeHandle]) -> bool
    requires { IsSome (operation_at ctx.now.program op) }
    ensures { OfTree ctx.now.program op (λ u. IsTrue result ↔ HaveTypes (world_of ctx.now) u.head.operands types.now) }
{
    if op.get_num_operands(ctx) != types.len() {
        return false;
    }
    for (index, ty) in types.iter().enumerate() {
        if !type_passes(ctx, TypeTest::Same(*ty), operand_type(ctx, op, index)) {
            return false;
        }
    }
    true
}

/// The first block of the first region of an operation.
fn entry_of<O, B>(program: &Program<O, B>, op: Ptr<Operation>) -> Option<Ptr<BasicBlock>>
    requires { IsSome (operation_at program.now op) }
    ensures entry { OfTree program.now op (λ u. IsEntryOrNone program.now u result) }
    ensures live { IfSome result (λ entry. IsSome (block_at program.now entry)) }
{
    match program.region(op, 0) {
        Some(region) => program.first_block(region),
        None => None,
    }
}

/// Whether an operation has an entry, whose arguments have these types.
fn takes_inputs(ctx: &Context<Kit>, op: Ptr<Operation>, inputs: &[TypeHandle]) -> bool
    requires { IsSome (operation_at ctx.now.program op) }
    ensures { OfTree ctx.now.program op (λ u. IsTrue result ↔ TakesInputs u inputs.now) }
{
    match entry_of(ctx.program(), op) {
        Some(entry) => arguments_are(ctx, entry, inputs),
        None => false,
    }
}

/// Whether an operation has a function type over integers, and an entry whose arguments have its input types.
fn has_function_body(ctx: &Context<Kit>, op: Ptr<Operation>) -> bool
    requires { IsSome (operation_at ctx.now.program op) }
    ensures { OfTree ctx.now.program op (λ u. IsTrue result ↔ HasFunctionBody (world_of ctx.now) u) }
{
    match signature(ctx, op) {
        Some(ty) => {
            if !are_integers(ctx, ty.inputs.as_slice()) {
                return false;
            }
            if !are_integers(ctx, ty.results.as_slice()) {
                return false;
            }
            takes_inputs(ctx, op, ty.inputs.as_slice())
        }
        None => false,
    }
}

/// Whether a function has a function type over integers, and an entry whose arguments have its input types.
pub(crate) fn function_has_type(ctx: &Context<Kit>, op: Ptr<Operation>) -> bool
    requires { IsSome (operation_at ctx.now.program op) }
    ensures { OfTree ctx.now.program op (λ u. IsTrue result ↔ IsTypedFunction (world_of ctx.now) u) }
{
    if !is_function(kind_of(ctx, op)) {
        return true;
    }
    has_function_body(ctx, op)
}

/// Whether an operation returns.
fn is_return(kind: KitOp) -> bool
    ensures { IsTrue result ↔ (kind ≡ Return) }
{
    match kind {
        KitOp::Return => true,
        _ => false,
    }
}

/// The function inside the root that an operation is in.
fn function_around(
    ctx: &Context<Kit>,
    root: Ptr<Operation>,
    op: Ptr<Operation>,
) -> Option<Ptr<Operation>>
    requires { IsSome (operation_at ctx.now.program op) }
    ensures function { OfSite ctx.now.program root op
        (λ s. IsInRegionOfFunction (world_of ctx.now) ctx.now.program s result) }
    ensures live { IfSome result (λ function. IsSome (operation_at ctx.now.program function)) }
{
    if !is_in_function(ctx, root, op) {
        return None;
    }
    owner_of(ctx, root, op)
}

/// Whether the operands of an operation have the result types of a function, if that has a function type.
fn returns_to(ctx: &Context<Kit>, op: Ptr<Operation>, function: Ptr<Operation>) -> bool
    requires op { IsSome (operation_at ctx.now.program op) }
    requires function { IsSome (operation_at ctx.now.program function) }
    ensures { OfTrees ctx.now.program op function (λ u f. IsTrue result ↔ ReturnsTo (world_of ctx.now) u f) }
{
    match signature(ctx, function) {
        Some(ty) => operands_are(ctx, op, ty.results.as_slice()),
        None => true,
    }
}

/// Whether an operation, if it returns from a function, has operands of the function's result types.
pub(crate) fn returns_fit(ctx: &Context<Kit>, root: Ptr<Operation>, op: Ptr<Operation>) -> bool
    requires { IsSome (operation_at ctx.now.program op) }
    ensures { OfSite ctx.now.program root op (λ s. IsTrue result ↔ ReturnsFit (world_of ctx.now) s) }
{
    if !is_return(kind_of(ctx, op)) {
        return true;
    }
    match function_around(ctx, root, op) {
        Some(function) => returns_to(ctx, op, function),
        None => true,
    }
}
