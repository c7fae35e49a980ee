//! Modules.
ghost use Rattle.std.specs.Prelude.{◌≡◌, ◌≢◌, Err, IfOk, IsOk, OnErr};
ghost use Rattle.ir_base.specs.declared.growth.GrowError.TheVariants.{CounterFull};
ghost use Rattle.ir_names.specs.Identifier.{text_of};
ghost use Rattle.ir_program.specs.Edits.{IsUnchanged};
ghost use Rattle.ir_program.specs.Program.{type_at};
ghost use Rattle.ir_program.specs.declared.handles.Value.{Value};
ghost use Rattle.builtin_ops.specs.Made.{MakesModule};

use crate::BuiltinOps;
use crate::building::build_with_block;
use crate::carried::{bare_notes, carried, name_alone};
use ir_context::Context;
use ir_names::{GrowError, Identifier};
use ir_program::{Operation, Ptr};
use ir_queries::OpMarker;
use ir_types::DialectTables;
use std::alloc::Global;
use std::convert::Infallible;

/// `builtin.module`: a name, and one region with one block.
pub struct ModuleOp;

impl<D: BuiltinOps> OpMarker<D> for ModuleOp {
    ghost KIND = { D.MODULE };

    const KIND: D::OpKind = D::MODULE;
}

impl ModuleOp {
    /// Makes a module of this name that stands in no block. It has one region with one block, which has no arguments and no
    /// operations.
    ///
    /// # Errors
    /// `Memory`. Each handle leads to what it led to then.
    pub fn new<D: BuiltinOps>(
        alloc: Global,
        ctx: &mut Context<D>,
        name: Identifier,
    ) -> Result<Ptr<Operation>, GrowError>
        ensures made { IfOk result (λ p. MakesModule D.nowhere D.MODULE D.held_identifier ctx.old.program
            ctx.new.program p (text_of name)) }
        ensures err { OnErr result (IsUnchanged ctx.old.program ctx.new.program) }
        ensures err_values { OnErr result ((v : Value) → type_at ctx.new.program v ≡ type_at ctx.old.program v) }
        ensures not_full { result ≢ Err CounterFull }
        ensures types { ctx.new.types ≡ ctx.old.types }
    {
        // So its counter isn't full, and no value is made.
        ctx.program().know_values();
        let attributes = name_alone(alloc, name)?;
        let payload = carried(D::MODULE, attributes);
        build_with_block(alloc, ctx, payload, bare_notes(alloc), &[])
    }

    /// Each module is accepted.
    pub fn verify<D: DialectTables>(
        _op: Ptr<Operation>,
        _ctx: &Context<D>,
    ) -> Result<(), Infallible>
        ensures { IsOk result }
    {
        Ok(())
    }
}
