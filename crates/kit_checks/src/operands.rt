//! The types of operands.
ghost use Rattle.std.specs.Prelude.{◌≡◌, ◌↔◌, ◌<◌, ◌++◌, IsSome, IsTrue, Some, length, map, option_map, slice_get};
ghost use Rattle.ir_program.specs.Program.{operation_at, type_at};
ghost use Rattle.ir_program.specs.Rows.{operands_at};
ghost use Rattle.kit_checks.specs.Rules.{HasCondition, HasKindTypes};
ghost use Rattle.kit_checks.specs.Reading.{OfTree};
ghost use Rattle.kit_checks.specs.Words.{AreAllEqual, Every, IsBit, is_arithmetic, is_comparison, is_cond_br, kind_of, types_of};
ghost use Rattle.kit_checks.specs.World.{world_of};

use crate::reading::{is_bit, kind_of};
use crate::types::{TypeTest, results_pass, type_passes};
use ir_context::{Context, OperandCalls, ResultCalls};
use ir_names::TypeHandle;
use ir_program::{Operation, Ptr};
use kit::Kit;
use kit_ops::KitOp;

/// Whether operations of this kind are arithmetic.
fn is_arithmetic(kind: KitOp) -> bool
    ensures { result ≡ is_arithmetic kind }
{
    match kind {
        KitOp::Arithmetic(_) => true,
        _ => false,
    }
}

/// Whether operations of this kind are comparisons.
fn is_comparison(kind: KitOp) -> bool
    ensures { result ≡ is_comparison kind }
{
    match kind {
        KitOp::Comparison(_) => true,
        _ => false,
    }
}

/// Whether operations of this kind branch on a condition.
fn is_cond_br(kind: KitOp) -> bool
    ensures { result ≡ is_cond_br kind }
{
    match kind {
        KitOp::CondBr => true,
        _ => false,
    }
}

/// The type of the operand at an index.
pub(crate) fn operand_type(ctx: &Context<Kit>, op: Ptr<Operation>, index: usize) -> TypeHandle
    requires { index < length (operands_at ctx.now.program op) }
    ensures { option_map (type_at ctx.now.program) (slice_get (operands_at ctx.now.program op) index) ≡ Some
        (Some result) }
{
    let value = op.get_operand(ctx, index);
    ctx.program().value_type(value)
}

/// Whether all operands have a type.
fn operands_have(ctx: &Context<Kit>, op: Ptr<Operation>, ty: TypeHandle) -> bool
    requires { IsSome (operation_at ctx.now.program op) }
    ensures { OfTree ctx.now.program op (λ u. IsTrue result ↔ Every (λ o. o ≡ Some ty)
        (map (world_of ctx.now).value_type u.head.operands)) }
{
    for index in 0..op.get_num_operands(ctx) {
        if !type_passes(ctx, TypeTest::Same(ty), operand_type(ctx, op, index)) {
            return false;
        }
    }
    true
}

/// Whether all operands have one type.
pub(crate) fn has_equal_operands(ctx: &Context<Kit>, op: Ptr<Operation>) -> bool
    requires { IsSome (operation_at ctx.now.program op) }
    ensures { OfTree ctx.now.program op (λ u. IsTrue result ↔ AreAllEqual
        (map (world_of ctx.now).value_type u.head.operands)) }
{
    if op.get_num_operands(ctx) == 0 {
        return true;
    }
    let first = operand_type(ctx, op, 0);
    operands_have(ctx, op, first)
}

/// Whether all results have one type.
fn has_equal_results(ctx: &Context<Kit>, op: Ptr<Operation>) -> bool
    requires { IsSome (operation_at ctx.now.program op) }
    ensures { OfTree ctx.now.program op (λ u. IsTrue result ↔ AreAllEqual (types_of u.head.results)) }
{
    if op.get_num_results(ctx) == 0 {
        return true;
    }
    results_pass(ctx, op, TypeTest::Same(op.get_type(ctx, 0)))
}

/// Whether all operands and all results have one type.
#[inline(always)]
pub(crate) fn has_one_type(ctx: &Context<Kit>, op: Ptr<Operation>) -> bool
    requires { IsSome (operation_at ctx.now.program op) }
    ensures { OfTree ctx.now.program op (λ u. IsTrue result ↔ AreAllEqual
        (map (world_of ctx.now).value_type u.head.operands ++ map Some (types_of u.head.results))) }
{
    if op.get_num_operands(ctx) == 0 {
        return has_equal_results(ctx, op);
    }
    let first = operand_type(ctx, op, 0);
    if !operands_have(ctx, op, first) {
        return false;
    }
    results_pass(ctx, op, TypeTest::Same(first))
}

/// Whether the first operand, if there is one, is one bit without a sign.
pub(crate) fn has_condition(ctx: &Context<Kit>, op: Ptr<Operation>) -> bool
    requires { IsSome (operation_at ctx.now.program op) }
    ensures { OfTree ctx.now.program op (λ u. IsTrue result ↔ HasCondition (world_of ctx.now) u) }
{
    if op.get_num_operands(ctx) == 0 {
        return true;
    }
    is_bit(ctx, operand_type(ctx, op, 0))
}

/// Whether all operands have one type, and all results are one bit without a sign.
fn compares_bits(ctx: &Context<Kit>, op: Ptr<Operation>) -> bool
    requires { IsSome (operation_at ctx.now.program op) }
    ensures { OfTree ctx.now.program op (λ u. IsTrue result ↔ AreAllEqual
        (map (world_of ctx.now).value_type u.head.operands)
        × Every (IsBit (world_of ctx.now)) (types_of u.head.results)) }
{
    if !has_equal_operands(ctx, op) {
        return false;
    }
    results_pass(ctx, op, TypeTest::Bit)
}

/// Whether the types of an operation's operands and results belong together, as its kind asks.
#[inline(always)]
pub(crate) fn types_agree(ctx: &Context<Kit>, op: Ptr<Operation>) -> bool
    requires { IsSome (operation_at ctx.now.program op) }
    ensures { OfTree ctx.now.program op (λ u. IsTrue result ↔ HasKindTypes (world_of ctx.now) u
        (kind_of (world_of ctx.now) u)) }
{
    let kind = kind_of(ctx, op);
    if is_arithmetic(kind) {
        return has_one_type(ctx, op);
    }
    if is_comparison(kind) {
        return compares_bits(ctx, op);
    }
    if is_cond_br(kind) {
        return has_condition(ctx, op);
    }
    true
}
