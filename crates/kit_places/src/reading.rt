//! What the machine reads of operations: attributes, widths, and the members of modules.
ghost use Rattle.std.specs.Prelude.{◌≡◌, ◌&&◌, IsSome, IfSome, option_copied, option_map, option_and_then, slice_get};
ghost use Rattle.ir_program.specs.Program.{operation_at, block_at, results_at, type_in};
ghost use Rattle.ir_program.specs.Lists.{operations_in};
ghost use Rattle.ir_context.specs.Kept.{kind_at};
ghost use Rattle.kit_ops.specs.Keys.{symbol_name};
ghost use Rattle.kit_places.specs.Store.{attribute_of, width_at, body_of, first_with, is_name, is_function, is_module, function_named, module_named};

use ir_context::{Context, OperationCalls, ResultCalls};
use ir_names::TypeHandle;
use ir_program::{BasicBlock, Operation, Ptr};
use kit::Kit;
use kit_ops::{KitAttr, KitOp, KitType, keys};

/// The attribute of an operation under a key.
pub fn attribute<'a>(ctx: &'a Context<Kit>, op: Ptr<Operation>, key: &str) -> Option<&'a KitAttr>
    requires { IsSome (operation_at ctx.now.program op) }
    ensures { option_copied result ≡ attribute_of ctx.now.program op key.now }
{
    op.deref(ctx).attributes.get(key)
}

/// The width of an integer type of at most 64 bits.
pub fn width(ctx: &Context<Kit>, ty: TypeHandle) -> Option<u32>
    ensures { result ≡ width_at ctx.now ty }
{
    match ctx.type_key(ty) {
        Some(KitType::Integer(integer)) => {
            if integer.width <= 64 {
                Some(integer.width)
            } else {
                None
            }
        }
        _ => None,
    }
}

/// The width of the first result of an operation.
pub fn result_width(ctx: &Context<Kit>, op: Ptr<Operation>) -> Option<u32>
    requires { IsSome (operation_at ctx.now.program op) }
    ensures { result ≡ option_and_then (width_at ctx.now) (type_in (results_at ctx.now.program op) 0) }
{
    if op.get_num_results(ctx) == 0 {
        return None;
    }
    width(ctx, op.get_type(ctx, 0))
}

/// The first block of the first region of an operation.
pub fn entry(ctx: &Context<Kit>, op: Ptr<Operation>) -> Option<Ptr<BasicBlock>>
    requires { IsSome (operation_at ctx.now.program op) }
    ensures entry { result ≡ slice_get (body_of ctx.now.program op) 0 }
    ensures live { IfSome result (λ block. IsSome (block_at ctx.now.program block)) }
{
    let region = ctx.program().region(op, 0)?;
    ctx.program().first_block(region)
}

/// Whether an operation has a name as a symbol.
fn is_named(ctx: &Context<Kit>, op: Ptr<Operation>, name: &str) -> bool
    requires { IsSome (operation_at ctx.now.program op) }
    ensures { result ≡ is_name name.now (attribute_of ctx.now.program op symbol_name) }
{
    match attribute(ctx, op, keys::SYMBOL_NAME) {
        Some(KitAttr::Identifier(own)) => name == own.as_str(),
        _ => false,
    }
}

/// Whether an operation is a function of a name.
fn is_function_named(ctx: &Context<Kit>, op: Ptr<Operation>, name: &str) -> bool
    requires { IsSome (operation_at ctx.now.program op) }
    ensures { result ≡ (is_function (kind_at ctx.now.program op) && is_name name.now
        (attribute_of ctx.now.program op symbol_name)) }
{
    match op.kind(ctx) {
        KitOp::Func => is_named(ctx, op, name),
        _ => false,
    }
}

/// Whether an operation is a module of a name.
fn is_module_named(ctx: &Context<Kit>, op: Ptr<Operation>, name: &str) -> bool
    requires { IsSome (operation_at ctx.now.program op) }
    ensures { result ≡ (is_module (kind_at ctx.now.program op) && is_name name.now
        (attribute_of ctx.now.program op symbol_name)) }
{
    match op.kind(ctx) {
        KitOp::Module => is_named(ctx, op, name),
        _ => false,
    }
}

/// The first function of a name in a block.
fn function_in(ctx: &Context<Kit>, block: Ptr<BasicBlock>, name: &str) -> Option<Ptr<Operation>>
    requires { IsSome (block_at ctx.now.program block) }
    ensures found { result ≡ first_with (λ p. is_function (kind_at ctx.now.program p) && is_name name.now
        (attribute_of ctx.now.program p symbol_name)) (operations_in ctx.now.program block) }
    ensures live { IfSome result (λ op. IsSome (operation_at ctx.now.program op)) }
{
    ctx.program().know_lists();
    for op in ctx.program().operations(block) {
        if is_function_named(ctx, op, name) {
            return Some(op);
        }
    }
    None
}

/// The function of a name in a module.
pub(crate) fn find_function(
    ctx: &Context<Kit>,
    outer: Ptr<Operation>,
    name: &str,
) -> Option<Ptr<Operation>>
    requires { IsSome (operation_at ctx.now.program outer) }
    ensures found { result ≡ function_named ctx.now.program outer name.now }
    ensures live { IfSome result (λ op. IsSome (operation_at ctx.now.program op)) }
{
    match entry(ctx, outer) {
        Some(block) => function_in(ctx, block, name),
        None => None,
    }
}

/// The first module of a name in a block.
fn module_in(ctx: &Context<Kit>, block: Ptr<BasicBlock>, name: &str) -> Option<Ptr<Operation>>
    requires { IsSome (block_at ctx.now.program block) }
    ensures found { result ≡ first_with (λ p. is_module (kind_at ctx.now.program p) && is_name name.now
        (attribute_of ctx.now.program p symbol_name)) (operations_in ctx.now.program block) }
    ensures live { IfSome result (λ op. IsSome (operation_at ctx.now.program op)) }
{
    ctx.program().know_lists();
    for op in ctx.program().operations(block) {
        if is_module_named(ctx, op, name) {
            return Some(op);
        }
    }
    None
}

/// The module of a name in a module.
pub(crate) fn find_module(
    ctx: &Context<Kit>,
    outer: Ptr<Operation>,
    name: &str,
) -> Option<Ptr<Operation>>
    requires { IsSome (operation_at ctx.now.program outer) }
    ensures found { result ≡ module_named ctx.now.program outer name.now }
    ensures live { IfSome result (λ op. IsSome (operation_at ctx.now.program op)) }
{
    match entry(ctx, outer) {
        Some(block) => module_in(ctx, block, name),
        None => None,
    }
}
