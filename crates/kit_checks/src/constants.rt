//! The values of constants.
ghost use Rattle.std.specs.Prelude.{◌≡◌, ◌↔◌, ◌<◌, ◌^◌, IsSome, IsTrue, Some};
ghost use Rattle.ir_program.specs.Program.{operation_at};
ghost use Rattle.kit_checks.specs.Reading.{IsIntegerOf, OfTree};
ghost use Rattle.kit_checks.specs.Rules.{HasConstantValue};
ghost use Rattle.kit_checks.specs.Words.{kind_of};
ghost use Rattle.kit_checks.specs.World.{world_of};
ghost use Rattle.kit_ops.specs.declared.kinds.KitOp.TheVariants.{Constant};

use crate::reading::{integer_type, integer_under, kind_of};
use crate::types::{TypeTest, results_pass};
use ir_context::Context;
use ir_names::Signedness;
use ir_program::{Operation, Ptr};
use kit::Kit;
use kit_ops::{IntegerAttr, IntegerType, KitOp, keys};

fn is_same_sign(a: Signedness, b: Signedness) -> bool
    ensures { IsTrue result ↔ (a ≡ b) }
{
    match (a, b) {
        (Signedness::Signless, Signedness::Signless) => true,
        (Signedness::Signed, Signedness::Signed) => true,
        (Signedness::Unsigned, Signedness::Unsigned) => true,
        _ => false,
    }
}

fn is_same_integer(a: IntegerType, b: IntegerType) -> bool
    ensures { IsTrue result ↔ (a ≡ b) }
{
    if a.width != b.width {
        return false;
    }
    is_same_sign(a.signedness, b.signedness)
}

/// Whether a number is below 2 to the power of a width.
fn fits_width(bits: u64, width: u32) -> bool
    ensures { IsTrue result ↔ (bits < 2 ^ width) }
{
    if width >= 64 {
        return true;
    }
    bits >> width == 0
}

/// Whether an attribute is a number of the integer type that it says.
fn is_integer_of(ctx: &Context<Kit>, value: IntegerAttr) -> bool
    ensures { IsTrue result ↔ IsIntegerOf (world_of ctx.now) value }
{
    match integer_type(ctx, value.ty) {
        Some(ty) => {
            if !is_same_integer(ty, value.integer) {
                return false;
            }
            fits_width(value.bits, value.integer.width)
        }
        None => false,
    }
}

/// Whether an operation has as its value an integer attribute of the type of its results.
fn has_constant_value(ctx: &Context<Kit>, op: Ptr<Operation>) -> bool
    requires { IsSome (operation_at ctx.now.program op) }
    ensures { OfTree ctx.now.program op (λ u. IsTrue result ↔ HasConstantValue (world_of ctx.now) u) }
{
    match integer_under(ctx, op, keys::CONSTANT_VALUE) {
        Some(value) => {
            if !is_integer_of(ctx, value) {
                return false;
            }
            results_pass(ctx, op, TypeTest::Same(value.ty))
        }
        None => false,
    }
}

/// Whether an operation is a constant.
fn is_constant(kind: KitOp) -> bool
    ensures { IsTrue result ↔ (kind ≡ Constant) }
{
    match kind {
        KitOp::Constant => true,
        _ => false,
    }
}

/// Whether a constant has as its value an integer attribute of the type of its results.
#[inline(always)]
pub(crate) fn constants_fit(ctx: &Context<Kit>, op: Ptr<Operation>) -> bool
    requires { IsSome (operation_at ctx.now.program op) }
    ensures { OfTree ctx.now.program op (λ u. IsTrue result ↔ (kind_of (world_of ctx.now) u ≡ Constant
        → HasConstantValue (world_of ctx.now) u)) }
{
    if !is_constant(kind_of(ctx, op)) {
        return true;
    }
    has_constant_value(ctx, op)
}
