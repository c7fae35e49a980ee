//! What stands for values until they are known.
ghost use Rattle.std.specs.Prelude.{◌≡◌, ◌-◌, ◌^◌, Err, IfOk, IsErr, OnErr, OnOk};
ghost use Rattle.ir_base.specs.declared.growth.GrowError.TheVariants.{CounterFull};
ghost use Rattle.ir_program.specs.Edits.{IsUnchanged};
ghost use Rattle.ir_program.specs.Program.{type_at};
ghost use Rattle.ir_program.specs.declared.handles.Value.{Value};
ghost use Rattle.ir_types.specs.Interned.{KeepsTypes, handle_of, with_type};
ghost use Rattle.builtin_ops.specs.Made.{MakesForwardRef};

use crate::BuiltinOps;
use ir_context::{Context, NewOperation};
use ir_names::GrowError;
use ir_program::{Operation, Ptr};
use ir_queries::OpMarker;
use ir_types::DialectTables;
use std::alloc::Global;
use thiserror::Error;

/// The operation stands for a value that isn't known.
#[derive(Clone, Copy, Debug, PartialEq, Eq, Error)]
#[error("a forward reference is left")]
pub struct ForwardRefOpExistenceErr;

/// `builtin.forward_ref`: one result, which stands for a value until that is known.
pub struct ForwardRefOp;

impl<D: BuiltinOps> OpMarker<D> for ForwardRefOp {
    ghost KIND = { D.FORWARD_REF };

    const KIND: D::OpKind = D::FORWARD_REF;
}

impl ForwardRefOp {
    /// Makes a forward reference that stands in no block. Its result has the type that has one value, which becomes one of
    /// the context's types where it isn't yet.
    ///
    /// # Errors
    /// `Memory`, and `CounterFull` where no number is left for a value. Each handle leads to what it led to then, and so
    /// does that of each type.
    pub fn new<D: BuiltinOps>(
        alloc: Global,
        ctx: &mut Context<D>,
    ) -> Result<Ptr<Operation>, GrowError>
        ensures made { IfOk result (λ p. MakesForwardRef D.nowhere D.FORWARD_REF ctx.old.program ctx.new.program p
            (handle_of D.TypeKey.eq ctx.old.types D.unit)) }
        ensures interned { OnOk result (ctx.new.types ≡ with_type D.TypeKey.eq ctx.old.types D.unit) }
        ensures err { OnErr result (IsUnchanged ctx.old.program ctx.new.program) }
        ensures err_values { OnErr result ((v : Value) → type_at ctx.new.program v ≡ type_at ctx.old.program v) }
        ensures full { result ≡ Err CounterFull → ctx.old.program.counter ≡ 2 ^ 64 - 1 }
        ensures keeps { KeepsTypes ctx.old.types ctx.new.types }
    {
        // So its counter is below 2^64.
        ctx.program().know_values();
        let ty = ctx.instantiate_key(alloc, D::unit_type())?;
        Operation::new(alloc, ctx, D::FORWARD_REF, &[ty], &[], &[], 0)
    }

    /// None is accepted.
    ///
    /// # Errors
    /// Always.
    pub fn verify<D: DialectTables>(
        _op: Ptr<Operation>,
        _ctx: &Context<D>,
    ) -> Result<(), ForwardRefOpExistenceErr>
        ensures { IsErr result }
    {
        Err(ForwardRefOpExistenceErr)
    }
}
