//! Functions.
ghost use Rattle.std.specs.Prelude.{◌≡◌, ◌≤◌, ◌+◌, ◌^◌, ◌↔◌, Err, IfOk, IfSome, IsSome, IsTrue, OnErr, Some, length, option_map};
ghost use Rattle.ir_base.specs.declared.growth.GrowError.TheVariants.{CounterFull};
ghost use Rattle.ir_names.specs.Identifier.{text_of};
ghost use Rattle.ir_program.specs.Edits.{IsUnchanged};
ghost use Rattle.ir_program.specs.Program.{operation_at, type_at};
ghost use Rattle.ir_program.specs.declared.handles.Value.{Value};
ghost use Rattle.ir_context.specs.Known.{AreKnownIn};
ghost use Rattle.op_ifaces.specs.Rules.{AcceptsExactly};
ghost use Rattle.builtin_ops.specs.Asked.{HasFunctionType, IsFunctionType, entry_block, held_under, signature_at};
ghost use Rattle.builtin_ops.specs.Keys.{function_type};
ghost use Rattle.builtin_ops.specs.Made.{MakesFunction};

use crate::building::build_with_block;
use crate::carried::{bare_notes, carried, name_and_type};
use crate::held::type_under;
use crate::{BuiltinOps, keys};
use builtin_tables::BuiltinDialect;
use ir_context::{Context, OperationCalls, RegionCalls, TypeCalls, TypeTable, TypedProgram};
use ir_names::{GrowError, Identifier, TypeHandle, TypeInterface};
use ir_program::{BasicBlock, Operation, Ptr};
use ir_queries::OpMarker;
use std::alloc::Global;
use thiserror::Error;

/// The operation has no type, or one that is no function's.
#[derive(Clone, Copy, Debug, PartialEq, Eq, Error)]
#[error("no attribute builtin_func_type holds the type of a function")]
pub struct FuncOpTypeErr;

/// `builtin.func`: a name, a type, and one region, whose first block has the arguments of the function.
pub struct FuncOp;

impl<D: BuiltinOps> OpMarker<D> for FuncOp {
    ghost KIND = { D.FUNC };

    const KIND: D::OpKind = D::FUNC;
}

/// The types of what a function of this type takes, in order.
fn inputs_of<D: BuiltinDialect>(ty: TypeHandle, ctx: &Context<D>) -> &[TypeHandle]
    requires { IsFunctionType ctx.now.types D.type_has ty }
    ensures { option_map (λ sides. sides.0) (signature_at ctx.now.types D.signature ty) ≡ Some result.now }
{
    match ctx.type_key(ty) {
        Some(key) => match D::function_type(key) {
            Some((inputs, _)) => inputs,
            None => unreachable!(),
        },
        None => unreachable!(),
    }
}

/// Whether each of the handles leads to a type.
fn are_known<O, B, T: TypeTable>(types: &[TypeHandle], ctx: &TypedProgram<O, B, T>) -> bool
    ensures { IsTrue result ↔ AreKnownIn (T.type_count ctx.now.types) types.now }
{
    for ty in types {
        if !ty.is_live(ctx) {
            return false;
        }
    }
    true
}

impl FuncOp {
    /// Whether the types of what a function of this type takes are the context's.
    pub fn has_known_inputs<D: BuiltinDialect>(ty: TypeHandle, ctx: &Context<D>) -> bool
        requires { IsFunctionType ctx.now.types D.type_has ty }
        ensures { IsTrue result ↔ IfSome (signature_at ctx.now.types D.signature ty)
            (λ sides. AreKnownIn (length ctx.now.types.keys) sides.0) }
    {
        are_known(inputs_of(ty, ctx), ctx)
    }

    /// Makes a function of this name and this type that stands in no block. It has one region with one block, which has an
    /// argument of each of the types that the function takes, in order, and no operations.
    ///
    /// # Errors
    /// `Memory`, and `CounterFull` where there are not so many numbers left for values. Each handle leads to what it led to
    /// then.
    pub fn new<D: BuiltinOps>(
        alloc: Global,
        ctx: &mut Context<D>,
        name: Identifier,
        ty: TypeHandle,
    ) -> Result<Ptr<Operation>, GrowError>
        requires function { IsFunctionType ctx.old.types D.type_has ty }
        requires known { IfSome (signature_at ctx.old.types D.signature ty)
            (λ sides. AreKnownIn (length ctx.old.types.keys) sides.0) }
        ensures made { IfOk result (λ p. IfSome (signature_at ctx.old.types D.signature ty) (λ sides.
            MakesFunction D.nowhere D.FUNC D.held_identifier D.held_type ctx.old.program ctx.new.program p
            (text_of name) ty sides.0)) }
        ensures err { OnErr result (IsUnchanged ctx.old.program ctx.new.program) }
        ensures err_values { OnErr result ((v : Value) → type_at ctx.new.program v ≡ type_at ctx.old.program v) }
        ensures full { result ≡ Err CounterFull → IfSome (signature_at ctx.old.types D.signature ty)
            (λ sides. 2 ^ 64 ≤ ctx.old.program.counter + length sides.0) }
        ensures types { ctx.new.types ≡ ctx.old.types }
    {
        let attributes = name_and_type(alloc, name, ty)?;
        let inputs = Vec::from_slice(alloc, inputs_of(ty, ctx))?;
        let payload = carried(D::FUNC, attributes);
        build_with_block(alloc, ctx, payload, bare_notes(alloc), &inputs)
    }

    /// Its type.
    pub fn get_type<D: BuiltinDialect>(op: Ptr<Operation>, ctx: &Context<D>) -> TypeHandle
        requires operation { IsSome (operation_at ctx.now.program op) }
        requires typed { IsSome (held_under ctx.now.program op D.held_type function_type) }
        ensures { held_under ctx.now.program op D.held_type function_type ≡ Some result }
    {
        match type_under(op, ctx, keys::FUNCTION_TYPE) {
            Some(ty) => ty,
            None => unreachable!(),
        }
    }

    /// The first block of its region.
    pub fn get_entry_block<O, B, T: TypeTable>(
        op: Ptr<Operation>,
        ctx: &TypedProgram<O, B, T>,
    ) -> Ptr<BasicBlock>
        requires operation { IsSome (operation_at ctx.now.program op) }
        requires block { IsSome (entry_block ctx.now.program op) }
        ensures { entry_block ctx.now.program op ≡ Some result }
    {
        match op.get_region(ctx, 0).get_entry_block(ctx) {
            Some(block) => block,
            None => unreachable!(),
        }
    }

    /// Whether the attribute under the key for types of functions holds the type of a function.
    pub fn verify<D: BuiltinDialect>(
        op: Ptr<Operation>,
        ctx: &Context<D>,
    ) -> Result<(), FuncOpTypeErr>
        requires { IsSome (operation_at ctx.now.program op) }
        ensures { AcceptsExactly result (HasFunctionType ctx.now.program op D.held_type ctx.now.types D.type_has) }
    {
        let Some(ty) = type_under(op, ctx, keys::FUNCTION_TYPE) else {
            return Err(FuncOpTypeErr);
        };
        if ctx.types().implements(ty, TypeInterface::FunctionType) {
            return Ok(());
        }
        Err(FuncOpTypeErr)
    }
}
