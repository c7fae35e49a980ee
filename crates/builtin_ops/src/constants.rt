//! Constants.
ghost use Rattle.std.specs.Prelude.{◌≡◌, ◌-◌, ◌^◌, Err, IfOk, IfSome, IsSome, OnErr, Some, length};
ghost use Rattle.ir_base.specs.declared.growth.GrowError.TheVariants.{CounterFull};
ghost use Rattle.ir_program.specs.Edits.{IsUnchanged};
ghost use Rattle.ir_program.specs.Program.{operation_at, results_at, type_at, type_in};
ghost use Rattle.ir_program.specs.declared.handles.Value.{Value};
ghost use Rattle.ir_context.specs.Known.{IsKnownIn};
ghost use Rattle.op_ifaces.specs.Rules.{AcceptsExactly};
ghost use Rattle.builtin_ops.specs.Asked.{HasTypedValue, attribute_under};
ghost use Rattle.builtin_ops.specs.Keys.{constant_value};
ghost use Rattle.builtin_ops.specs.Made.{MakesConstant};

use crate::carried::{carried, value_alone};
use crate::held::attribute_under;
use crate::{BuiltinOps, keys};
use ir_context::{Context, OperationCalls, ResultCalls};
use ir_names::{GrowError, TypeHandle};
use ir_program::{Operation, Ptr};
use ir_queries::OpMarker;
use ir_types::DialectTables;
use std::alloc::Global;
use thiserror::Error;

/// Why a constant is refused.
#[derive(Clone, Copy, Debug, PartialEq, Eq, Error)]
pub enum ConstantOpVerifyErr {
    /// No attribute is its value.
    #[error("there is no attribute builtin_constant_value")]
    MissingValue,
    /// The value has no type.
    #[error("the value has no type")]
    ValueNotTyped,
    /// The first result has another type than the value, or there is no result.
    #[error("the result has another type than the value")]
    ResultTypeMismatch,
}

/// `builtin.constant`: a value, and one result of the value's type.
pub struct ConstantOp;

impl<D: BuiltinOps> OpMarker<D> for ConstantOp {
    ghost KIND = { D.CONSTANT };

    const KIND: D::OpKind = D::CONSTANT;
}

/// The type of the operation's first result, if it has one.
fn first_type<D: DialectTables>(op: Ptr<Operation>, ctx: &Context<D>) -> Option<TypeHandle>
    requires { IsSome (operation_at ctx.now.program op) }
    ensures { result ≡ type_in (results_at ctx.now.program op) 0 }
{
    if op.get_num_results(ctx) == 0 {
        return None;
    }
    Some(op.get_type(ctx, 0))
}

impl ConstantOp {
    /// Makes a constant with this value that stands in no block. Its result has the type of the value, which has one of the
    /// context.
    ///
    /// # Errors
    /// `Memory`, and `CounterFull` where no number is left for a value. Each handle leads to what it led to then.
    pub fn new<D: BuiltinOps>(
        alloc: Global,
        ctx: &mut Context<D>,
        value: D::Attr,
    ) -> Result<Ptr<Operation>, GrowError>
        requires typed { IsSome (D.type_of_attr value) }
        requires known { IfSome (D.type_of_attr value) (IsKnownIn (length ctx.old.types.keys)) }
        ensures made { IfOk result (λ p. IfSome (D.type_of_attr value)
            (MakesConstant D.nowhere D.CONSTANT ctx.old.program ctx.new.program p value)) }
        ensures err { OnErr result (IsUnchanged ctx.old.program ctx.new.program) }
        ensures err_values { OnErr result ((v : Value) → type_at ctx.new.program v ≡ type_at ctx.old.program v) }
        ensures full { result ≡ Err CounterFull → ctx.old.program.counter ≡ 2 ^ 64 - 1 }
        ensures types { ctx.new.types ≡ ctx.old.types }
    {
        // So its counter is below 2^64.
        ctx.program().know_values();
        match D::type_of(&value) {
            Some(ty) => {
                let payload = carried(D::CONSTANT, value_alone(alloc, value)?);
                ctx.new_operation(alloc, payload, &[ty], &[], &[], 0)
            }
            None => unreachable!(),
        }
    }

    /// Its value.
    pub fn get_value<D: DialectTables>(op: Ptr<Operation>, ctx: &Context<D>) -> &D::Attr
        requires operation { IsSome (operation_at ctx.now.program op) }
        requires value { IsSome (attribute_under ctx.now.program op constant_value) }
        ensures { attribute_under ctx.now.program op constant_value ≡ Some result.now }
    {
        match attribute_under(op, ctx, keys::CONSTANT_VALUE) {
            Some(value) => value,
            None => unreachable!(),
        }
    }

    /// Whether there is a value that has a type, and the first result has that type.
    pub fn verify<D: DialectTables>(
        op: Ptr<Operation>,
        ctx: &Context<D>,
    ) -> Result<(), ConstantOpVerifyErr>
        requires { IsSome (operation_at ctx.now.program op) }
        ensures { AcceptsExactly result (HasTypedValue ctx.now.program op D.type_of_attr) }
    {
        let Some(value) = attribute_under(op, ctx, keys::CONSTANT_VALUE) else {
            return Err(ConstantOpVerifyErr::MissingValue);
        };
        let Some(ty) = D::type_of(value) else {
            return Err(ConstantOpVerifyErr::ValueNotTyped);
        };
        if first_type(op, ctx) == Some(ty) {
            return Ok(());
        }
        Err(ConstantOpVerifyErr::ResultTypeMismatch)
    }
}
