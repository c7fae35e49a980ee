//! Calls.
ghost use Rattle.std.specs.Prelude.{◌≡◌, IsSome, IfOk, IfSome, Some, drop, option_map};
ghost use Rattle.ir_names.specs.declared.interfaces.OpInterface.TheVariants as interface;
ghost use Rattle.ir_program.specs.Program.{operation_at};
ghost use Rattle.ir_program.specs.Rows.{operands_at};
ghost use Rattle.ir_context.specs.Kept.{kind_at};
ghost use Rattle.op_ifaces.specs.Rules.{AcceptsExactly};
ghost use Rattle.builtin_ifaces.specs.Calls.{HasCalleeType, callee_at, callee_type_at, callee_of};
ghost use Rattle.builtin_ifaces.specs.Types.{IsFunctionType};

use crate::attributes::{identifier_under, type_under};
use crate::callees::CallOpCallable;
use crate::operand_ranges::operands_from;
use builtin_tables::{BuiltinDialect, CalleePlace};
use ir_context::{Context, OperandCalls, OperationCalls};
use ir_names::{OpInterface, TypeHandle, TypeInterface};
use ir_program::{Operation, Ptr, Value};
use ir_queries::OpInterfaceMarker;
use std::alloc::{AllocError, Global};
use thiserror::Error;

/// Why the type of what a call calls isn't as it should be.
#[derive(Clone, Copy, Debug, PartialEq, Eq, Error)]
pub enum CallOpInterfaceErr {
    /// There is no attribute that holds it.
    #[error("no attribute holds the type of the callee")]
    CalleeTypeAttrNotFoundErr,
    /// It isn't the type of a function.
    #[error("the type of the callee is not that of a function")]
    CalleeTypeAttrIncorrectTypeErr,
}

/// The type of what is called.
fn find_callee_type<D: BuiltinDialect>(op: Ptr<Operation>, ctx: &Context<D>) -> Option<TypeHandle>
    requires { IsSome (operation_at ctx.now.program op) }
    ensures { result ≡ callee_type_at ctx.now.program op D.held_type D.key_of_callee_type }
{
    type_under(op, ctx, D::callee_type_key(op.kind(ctx)))
}

/// What is called, if it is in the place that the dialect says.
fn find_callee<'a, D: BuiltinDialect>(
    op: Ptr<Operation>,
    ctx: &'a Context<D>,
) -> Option<CallOpCallable<'a>>
    requires { IsSome (operation_at ctx.now.program op) }
    ensures { option_map callee_of result
        ≡ callee_at ctx.now.program op D.held_identifier D.key_of_callee D.place_of_callee }
{
    let kind = op.kind(ctx);
    match D::callee_place(kind) {
        CalleePlace::Attribute => match identifier_under(op, ctx, D::callee_key(kind)) {
            Some(name) => Some(CallOpCallable::Direct(name)),
            None => None,
        },
        CalleePlace::Operand(i) => {
            if i < op.get_num_operands(ctx) {
                return Some(CallOpCallable::Indirect(op.get_operand(ctx, i)));
            }
            None
        }
    }
}

/// The operation calls a function.
pub struct CallOpInterface;

impl OpInterfaceMarker for CallOpInterface {
    ghost INTERFACE = { interface.CallOp };

    const INTERFACE: OpInterface = OpInterface::CallOp;
}

impl CallOpInterface {
    /// Whether the type of what is called is there, and is that of a function. What is called isn't asked for.
    pub fn verify<D: BuiltinDialect>(
        op: Ptr<Operation>,
        ctx: &Context<D>,
    ) -> Result<(), CallOpInterfaceErr>
        requires { IsSome (operation_at ctx.now.program op) }
        ensures { AcceptsExactly result (HasCalleeType ctx.now.program op D.held_type D.key_of_callee_type
            ctx.now.types D.type_has) }
    {
        let Some(ty) = find_callee_type(op, ctx) else {
            return Err(CallOpInterfaceErr::CalleeTypeAttrNotFoundErr);
        };
        if ctx.types().implements(ty, TypeInterface::FunctionType) {
            return Ok(());
        }
        Err(CallOpInterfaceErr::CalleeTypeAttrIncorrectTypeErr)
    }

    /// What is called: the function with a name, or a value. None where it isn't in the place that the dialect says.
    pub fn callee<D: BuiltinDialect>(
        op: Ptr<Operation>,
        ctx: &Context<D>,
    ) -> Option<CallOpCallable<'_>>
        requires { IsSome (operation_at ctx.now.program op) }
        ensures { option_map callee_of result
            ≡ callee_at ctx.now.program op D.held_identifier D.key_of_callee D.place_of_callee }
    {
        find_callee(op, ctx)
    }

    /// The type of what is called, which is that of a function.
    pub fn callee_type<D: BuiltinDialect>(op: Ptr<Operation>, ctx: &Context<D>) -> TypeHandle
        requires operation { IsSome (operation_at ctx.now.program op) }
        requires rule { HasCalleeType ctx.now.program op D.held_type D.key_of_callee_type
            ctx.now.types D.type_has }
        ensures exact { callee_type_at ctx.now.program op D.held_type D.key_of_callee_type ≡ Some result }
        ensures is_function { IsFunctionType ctx.now.types D.type_has result }
    {
        match find_callee_type(op, ctx) {
            Some(ty) => ty,
            None => unreachable!(),
        }
    }

    /// The operands that are handed to what is called, in order.
    ///
    /// # Errors
    /// There may be no memory for the list.
    pub fn args<D: BuiltinDialect>(
        alloc: Global,
        op: Ptr<Operation>,
        ctx: &Context<D>,
    ) -> Result<Vec<Value>, AllocError>
        requires { IsSome (operation_at ctx.now.program op) }
        ensures { IfOk result (λ args. IfSome (kind_at ctx.now.program op) (λ kind.
            args.items ≡ drop (D.arguments_from kind) (operands_at ctx.now.program op))) }
    {
        operands_from(alloc, op, ctx, D::first_argument(op.kind(ctx)))
    }
}
