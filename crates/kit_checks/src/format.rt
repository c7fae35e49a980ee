//! The formats of operations: numbers of what they have, and their own attributes.
ghost use Rattle.std.specs.Prelude.{◌≡◌, ◌↔◌, ◌+◌, ◌∷◌, [], ℕ, IsSome, IsTrue, option_copied};
ghost use Rattle.ir_program.specs.Program.{operation_at};
ghost use Rattle.kit_checks.specs.Reading.{OfTree};
ghost use Rattle.kit_checks.specs.Rules.{AreSegments, Counts, FitsKind, HasCallNumbers, HasCallee, HasName, HasNumbersOf, HasOperands, HasOwnType, HasSegments, HasValue, IsValue};
ghost use Rattle.kit_checks.specs.Words.{callee_signature, kind_of};
ghost use Rattle.kit_checks.specs.World.{world_of};
ghost use Rattle.kit_ops.specs.declared.kinds.KitOp.TheVariants.{Module, Func, Constant, CondBr};

use crate::counts::{has_counts, has_operands};
use crate::reading::{
    attribute_of, function_type, identifier_under, kind_of, sizes_under, type_under,
};
use ir_context::{Context, OperandCalls};
use ir_program::{Operation, Ptr};
use kit::Kit;
use kit_ops::{FunctionType, KitAttr, KitOp, keys};

/// Whether an operation has so many results, regions and operands, and no successor.
fn has_shape(
    ctx: &Context<Kit>,
    op: Ptr<Operation>,
    results: usize,
    regions: usize,
    operands: usize,
) -> bool
    requires { IsSome (operation_at ctx.now.program op) }
    ensures { OfTree ctx.now.program op (λ u. IsTrue result ↔ Counts u results 0 regions × HasOperands u operands) }
{
    if !has_counts(ctx, op, results, 0, regions) {
        return false;
    }
    has_operands(ctx, op, operands)
}

/// Whether an operation has a name.
fn has_name(ctx: &Context<Kit>, op: Ptr<Operation>) -> bool
    requires { IsSome (operation_at ctx.now.program op) }
    ensures { OfTree ctx.now.program op (λ u. IsTrue result ↔ HasName (world_of ctx.now) u) }
{
    match identifier_under(ctx, op, keys::SYMBOL_NAME) {
        Some(_) => true,
        None => false,
    }
}

/// Whether an operation has a type of its own.
fn has_own_type(ctx: &Context<Kit>, op: Ptr<Operation>) -> bool
    requires { IsSome (operation_at ctx.now.program op) }
    ensures { OfTree ctx.now.program op (λ u. IsTrue result ↔ HasOwnType (world_of ctx.now) u) }
{
    match type_under(ctx, op, keys::FUNCTION_TYPE) {
        Some(_) => true,
        None => false,
    }
}

/// Whether an operation has an integer or a type as its value.
fn has_value(ctx: &Context<Kit>, op: Ptr<Operation>) -> bool
    requires { IsSome (operation_at ctx.now.program op) }
    ensures { OfTree ctx.now.program op (λ u. IsTrue result ↔ HasValue (world_of ctx.now) u) }
{
    match attribute_of(ctx, op, keys::CONSTANT_VALUE) {
        Some(attr) => is_value(attr),
        None => false,
    }
}

/// Whether an attribute is an integer or a type.
fn is_value(attr: &KitAttr) -> bool
    ensures { IsTrue result ↔ IsValue attr.now }
{
    match attr {
        KitAttr::Integer(_) | KitAttr::Type(_) => true,
        _ => false,
    }
}

/// Whether the sizes are those of a condition and of two segments more, with so many members in all.
fn are_segments(sizes: &[u32], count: usize) -> bool
    ensures { IsTrue result ↔ AreSegments sizes.now count }
{
    match sizes {
        [1, first, second] => count == 1 + *first as usize + *second as usize,
        _ => false,
    }
}

/// Whether an operation has a condition and the operands of two edges.
fn has_segments(ctx: &Context<Kit>, op: Ptr<Operation>) -> bool
    requires { IsSome (operation_at ctx.now.program op) }
    ensures { OfTree ctx.now.program op (λ u. IsTrue result ↔ HasSegments (world_of ctx.now) u) }
{
    match sizes_under(ctx, op, keys::SEGMENT_SIZES) {
        Some(sizes) => are_segments(sizes.as_slice(), op.get_num_operands(ctx)),
        None => false,
    }
}

/// Whether an operation has the name of what it calls.
fn has_callee(ctx: &Context<Kit>, op: Ptr<Operation>) -> bool
    requires { IsSome (operation_at ctx.now.program op) }
    ensures { OfTree ctx.now.program op (λ u. IsTrue result ↔ HasCallee (world_of ctx.now) u) }
{
    match identifier_under(ctx, op, keys::CALLEE) {
        Some(_) => true,
        None => false,
    }
}

/// The function type that a call says.
fn callee_signature<'a>(ctx: &'a Context<Kit>, op: Ptr<Operation>) -> Option<&'a FunctionType>
    requires { IsSome (operation_at ctx.now.program op) }
    ensures { OfTree ctx.now.program op (λ u. callee_signature (world_of ctx.now) u ≡ option_copied result) }
{
    match type_under(ctx, op, keys::CALLEE_TYPE) {
        Some(ty) => function_type(ctx, ty),
        None => None,
    }
}

/// Whether an operation has as many operands and results as a function type, and no successor or region.
fn has_numbers_of(ctx: &Context<Kit>, op: Ptr<Operation>, signature: &FunctionType) -> bool
    requires { IsSome (operation_at ctx.now.program op) }
    ensures { OfTree ctx.now.program op (λ u. IsTrue result ↔ HasNumbersOf u signature.now) }
{
    has_shape(ctx, op, signature.results.len(), 0, signature.inputs.len())
}

/// Whether an operation has the name and the type of a function, and the numbers of this type.
fn has_call_numbers(ctx: &Context<Kit>, op: Ptr<Operation>) -> bool
    requires { IsSome (operation_at ctx.now.program op) }
    ensures { OfTree ctx.now.program op (λ u. IsTrue result ↔ HasCallNumbers (world_of ctx.now) u) }
{
    if !has_callee(ctx, op) {
        return false;
    }
    match callee_signature(ctx, op) {
        Some(signature) => has_numbers_of(ctx, op, signature),
        None => false,
    }
}

/// Whether an operation has the format of a module.
fn fits_module(ctx: &Context<Kit>, op: Ptr<Operation>) -> bool
    requires { IsSome (operation_at ctx.now.program op) }
    ensures { OfTree ctx.now.program op (λ u. IsTrue result ↔ FitsKind (world_of ctx.now) u Module) }
{
    if !has_shape(ctx, op, 0, 1, 0) {
        return false;
    }
    has_name(ctx, op)
}

/// Whether an operation has the format of a function.
fn fits_function(ctx: &Context<Kit>, op: Ptr<Operation>) -> bool
    requires { IsSome (operation_at ctx.now.program op) }
    ensures { OfTree ctx.now.program op (λ u. IsTrue result ↔ FitsKind (world_of ctx.now) u Func) }
{
    if !has_shape(ctx, op, 0, 1, 0) {
        return false;
    }
    if !has_name(ctx, op) {
        return false;
    }
    has_own_type(ctx, op)
}

/// Whether an operation has the format of a constant.
fn fits_constant(ctx: &Context<Kit>, op: Ptr<Operation>) -> bool
    requires { IsSome (operation_at ctx.now.program op) }
    ensures { OfTree ctx.now.program op (λ u. IsTrue result ↔ FitsKind (world_of ctx.now) u Constant) }
{
    if !has_shape(ctx, op, 1, 0, 0) {
        return false;
    }
    has_value(ctx, op)
}

/// Whether an operation has the format of a conditional branch.
fn fits_cond_br(ctx: &Context<Kit>, op: Ptr<Operation>) -> bool
    requires { IsSome (operation_at ctx.now.program op) }
    ensures { OfTree ctx.now.program op (λ u. IsTrue result ↔ FitsKind (world_of ctx.now) u CondBr) }
{
    if !has_counts(ctx, op, 0, 2, 0) {
        return false;
    }
    has_segments(ctx, op)
}

/// Whether an operation has the format of its kind.
#[inline(always)]
pub(crate) fn fits_format(ctx: &Context<Kit>, op: Ptr<Operation>) -> bool
    requires { IsSome (operation_at ctx.now.program op) }
    ensures { OfTree ctx.now.program op (λ u. IsTrue result ↔ FitsKind (world_of ctx.now) u
        (kind_of (world_of ctx.now) u)) }
{
    match kind_of(ctx, op) {
        KitOp::Module => fits_module(ctx, op),
        KitOp::Func => fits_function(ctx, op),
        KitOp::Constant => fits_constant(ctx, op),
        KitOp::ForwardRef => has_shape(ctx, op, 1, 0, 0),
        KitOp::Arithmetic(_) => has_shape(ctx, op, 1, 0, 2),
        KitOp::Comparison(_) => has_shape(ctx, op, 1, 0, 2),
        KitOp::Br => has_counts(ctx, op, 0, 1, 0),
        KitOp::CondBr => fits_cond_br(ctx, op),
        KitOp::Call => has_call_numbers(ctx, op),
        KitOp::Emit => has_shape(ctx, op, 0, 0, 1),
        KitOp::Return => has_counts(ctx, op, 0, 0, 0),
    }
}
