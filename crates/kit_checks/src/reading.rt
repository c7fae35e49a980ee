//! What the rules read of an operation: its kind, its attributes, and what types are.
ghost use Rattle.std.specs.Prelude.{◌≡◌, ◌↔◌, IsSome, IsTrue, option_and_then, option_copied, option_map};
ghost use Rattle.ir_program.specs.Program.{operation_at};
ghost use Rattle.ir_names.specs.declared.kinds.Signedness.TheVariants.{Signless};
ghost use Rattle.kit_ops.specs.declared.kinds.KitOp.TheVariants.{Module, Func};
ghost use Rattle.kit_checks.specs.Reading.{OfTree};
ghost use Rattle.kit_checks.specs.World.{world_of};
ghost use Rattle.kit_checks.specs.Words.{attribute_of, integer_type, function_type, kind_of, is_instruction, is_terminator, is_symbol, IsValueType, IsBit, IsInteger, identifier_in, integer_in, sizes_in, type_in};
ghost use Rattle.ir_names.specs.Identifier.{text_of};

use ir_context::{Context, OperationCalls};
use ir_names::{Identifier, Signedness, TypeHandle};
use ir_program::{Operation, Ptr};
use kit::Kit;
use kit_ops::{FunctionType, IntegerAttr, IntegerType, KitAttr, KitOp, KitType};

/// The kind of an operation.
pub(crate) fn kind_of(ctx: &Context<Kit>, op: Ptr<Operation>) -> KitOp
    requires { IsSome (operation_at ctx.now.program op) }
    ensures { OfTree ctx.now.program op (λ u. kind_of (world_of ctx.now) u ≡ result) }
{
    op.kind(ctx)
}

/// The attribute of an operation under a key.
pub(crate) fn attribute_of<'a>(
    ctx: &'a Context<Kit>,
    op: Ptr<Operation>,
    key: &str,
) -> Option<&'a KitAttr>
    requires { IsSome (operation_at ctx.now.program op) }
    ensures { OfTree ctx.now.program op (λ u. attribute_of (world_of ctx.now) u key.now ≡ option_copied result) }
{
    op.deref(ctx).attributes.get(key)
}

/// The integer type that a type is, if it is one.
pub(crate) fn integer_type(ctx: &Context<Kit>, ty: TypeHandle) -> Option<IntegerType>
    ensures { integer_type (world_of ctx.now) ty ≡ result }
{
    match ctx.type_key(ty) {
        Some(KitType::Integer(integer)) => Some(*integer),
        _ => None,
    }
}

/// The function type that a type is, if it is one.
pub fn function_type<'a>(ctx: &'a Context<Kit>, ty: TypeHandle) -> Option<&'a FunctionType>
    ensures { function_type (world_of ctx.now) ty ≡ option_copied result }
{
    match ctx.type_key(ty) {
        Some(KitType::Function(function)) => Some(function),
        _ => None,
    }
}

/// Whether values can have a type: an integer type of 1 to 64 bits.
pub(crate) fn is_value_type(ctx: &Context<Kit>, ty: TypeHandle) -> bool
    ensures { IsTrue result ↔ IsValueType (world_of ctx.now) ty }
{
    match integer_type(ctx, ty) {
        Some(integer) => 1 <= integer.width && integer.width <= 64,
        None => false,
    }
}

/// Whether a type is an integer type.
pub(crate) fn is_integer(ctx: &Context<Kit>, ty: TypeHandle) -> bool
    ensures { IsTrue result ↔ IsInteger (world_of ctx.now) ty }
{
    match integer_type(ctx, ty) {
        Some(_) => true,
        None => false,
    }
}

fn is_signless(signedness: Signedness) -> bool
    ensures { IsTrue result ↔ (signedness ≡ Signless) }
{
    match signedness {
        Signedness::Signless => true,
        Signedness::Signed | Signedness::Unsigned => false,
    }
}

/// Whether a type is the signless integer type of width 1.
pub(crate) fn is_bit(ctx: &Context<Kit>, ty: TypeHandle) -> bool
    ensures { IsTrue result ↔ IsBit (world_of ctx.now) ty }
{
    match integer_type(ctx, ty) {
        Some(integer) => integer.width == 1 && is_signless(integer.signedness),
        None => false,
    }
}

/// Whether an operation is a module.
pub fn is_module(kind: KitOp) -> bool
    ensures { IsTrue result ↔ (kind ≡ Module) }
{
    match kind {
        KitOp::Module => true,
        _ => false,
    }
}

/// Whether an operation is a function.
pub fn is_function(kind: KitOp) -> bool
    ensures { IsTrue result ↔ (kind ≡ Func) }
{
    match kind {
        KitOp::Func => true,
        _ => false,
    }
}

/// Whether an operation of this kind has a name.
pub fn is_symbol(kind: KitOp) -> bool
    ensures { result ≡ is_symbol kind }
{
    match kind {
        KitOp::Module | KitOp::Func => true,
        _ => false,
    }
}

/// Whether an operation of this kind stands in the blocks of functions.
pub(crate) fn is_instruction(kind: KitOp) -> bool
    ensures { result ≡ is_instruction kind }
{
    match kind {
        KitOp::Module | KitOp::Func | KitOp::ForwardRef => false,
        _ => true,
    }
}

/// Whether an operation of this kind ends a block.
pub(crate) fn is_terminator(kind: KitOp) -> bool
    ensures { result ≡ is_terminator kind }
{
    match kind {
        KitOp::Br | KitOp::CondBr | KitOp::Return => true,
        _ => false,
    }
}

/// The type under a key of an operation's attributes.
pub(crate) fn type_under(ctx: &Context<Kit>, op: Ptr<Operation>, key: &str) -> Option<TypeHandle>
    requires { IsSome (operation_at ctx.now.program op) }
    ensures { OfTree ctx.now.program op (λ u. option_and_then type_in (attribute_of (world_of ctx.now) u key.now)
        ≡ result) }
{
    match attribute_of(ctx, op, key) {
        Some(KitAttr::Type(ty)) => Some(*ty),
        _ => None,
    }
}

/// The identifier under a key of an operation's attributes.
pub(crate) fn identifier_under<'a>(
    ctx: &'a Context<Kit>,
    op: Ptr<Operation>,
    key: &str,
) -> Option<&'a Identifier>
    requires { IsSome (operation_at ctx.now.program op) }
    ensures { OfTree ctx.now.program op (λ u. option_and_then identifier_in
        (attribute_of (world_of ctx.now) u key.now) ≡ option_map (λ id. text_of id.now) result) }
{
    match attribute_of(ctx, op, key) {
        Some(KitAttr::Identifier(id)) => Some(id),
        _ => None,
    }
}

/// The integer under a key of an operation's attributes.
pub(crate) fn integer_under(
    ctx: &Context<Kit>,
    op: Ptr<Operation>,
    key: &str,
) -> Option<IntegerAttr>
    requires { IsSome (operation_at ctx.now.program op) }
    ensures { OfTree ctx.now.program op (λ u. option_and_then integer_in (attribute_of (world_of ctx.now) u key.now)
        ≡ result) }
{
    match attribute_of(ctx, op, key) {
        Some(KitAttr::Integer(integer)) => Some(*integer),
        _ => None,
    }
}

/// The sizes of segments under a key of an operation's attributes.
pub(crate) fn sizes_under<'a>(
    ctx: &'a Context<Kit>,
    op: Ptr<Operation>,
    key: &str,
) -> Option<&'a Vec<u32>>
    requires { IsSome (operation_at ctx.now.program op) }
    ensures { OfTree ctx.now.program op (λ u. option_and_then sizes_in (attribute_of (world_of ctx.now) u key.now)
        ≡ option_map (λ sizes. sizes.now.items) result) }
{
    match attribute_of(ctx, op, key) {
        Some(KitAttr::SegmentSizes(sizes)) => Some(sizes),
        _ => None,
    }
}
