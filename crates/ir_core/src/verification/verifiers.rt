//! The tests of a dialect.
ghost use Rattle.std.specs.Prelude.{◌↔◌, IsOk, IsSome, IfErr};
ghost use Rattle.ir_base.specs.declared.types.TypeHandle.{TypeHandle};
ghost use Rattle.ir_program.specs.declared.handles.Ptr.{Ptr};
ghost use Rattle.ir_program.specs.declared.handles.Operation.{Operation};
ghost use Rattle.ir_program.specs.Program.{operation_at};
ghost use Rattle.ir_types.specs.Interned.{IsKnown};
ghost use Rattle.ir_core.specs.verification.Dialect.{DialectContext};
ghost use Rattle.ir_core.specs.verification.Tests.{Test, of_op, of_attr, of_type};

use ir_context::Context;
use ir_names::TypeHandle;
use ir_program::{Operation, Ptr};
use ir_types::DialectTables;
use std::fmt::Debug;

/// One test each for operations, attributes and types.
pub trait Verifiers<D: DialectTables> {
    /// What a test answers that doesn't accept.
    type Fault: Debug + Drop;

    /// Which operations, attributes and types of a context are accepted.
    ghost accepts: { Self
        → DialectContext D D.TypeKind D.AttrKind D.TypeBody D.Saved D.Location D.OpKind D.Attr D.TypeKey → Test D.Attr
        → Type 0 };

    /// Which faults may be answered to those that aren't.
    ghost answers: { Self
        → DialectContext D D.TypeKind D.AttrKind D.TypeBody D.Saved D.Location D.OpKind D.Attr D.TypeKey → Test D.Attr
        → Self.Fault → Type 0 };

    /// The test of an operation by itself.
    ///
    /// # Errors
    /// Refused exactly where the operation isn't accepted.
    fn verify_op(&self, op: Ptr<Operation>, ctx: &Context<D>) -> Result<(), Self::Fault>
        requires { IsSome (operation_at ctx.now.program op) }
        ensures accepted { IsOk result ↔ accepts self.now ctx.now (of_op op) }
        ensures fault { IfErr result (λ fault. answers self.now ctx.now (of_op op) fault) };

    /// The test of an attribute.
    ///
    /// # Errors
    /// Refused exactly where the attribute isn't accepted.
    fn verify_attr(&self, attr: &D::Attr, ctx: &Context<D>) -> Result<(), Self::Fault>
        ensures accepted { IsOk result ↔ accepts self.now ctx.now (of_attr attr.now) }
        ensures fault { IfErr result (λ fault. answers self.now ctx.now (of_attr attr.now) fault) };

    /// The test of a type.
    ///
    /// # Errors
    /// Refused exactly where the type isn't accepted.
    fn verify_type(&self, ty: TypeHandle, ctx: &Context<D>) -> Result<(), Self::Fault>
        requires { IsKnown ctx.now.types ty }
        ensures accepted { IsOk result ↔ accepts self.now ctx.now (of_type ty) }
        ensures fault { IfErr result (λ fault. answers self.now ctx.now (of_type ty) fault) };
}
