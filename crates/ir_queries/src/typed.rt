//! What has a type.
ghost use Rattle.std.specs.Prelude.{◌≡◌, Some, IsSome};
ghost use Rattle.ir_queries.specs.Subjects.{Subject, OfType, OfValue, type_of};

use ir_context::{TypeTable, TypedProgram};
use ir_names::TypeHandle;
use ir_program::Value;

/// What has a type.
pub trait Typed {
    /// The type, or the value.
    ghost subject: { Self → Subject };

    /// Its type. A type is its own; a value has one where it stands at its definer.
    fn get_type<O, B, T: TypeTable>(&self, ctx: &TypedProgram<O, B, T>) -> TypeHandle
        requires { IsSome (type_of ctx.now.program (subject self.now)) }
        ensures { type_of ctx.now.program (subject self.now) ≡ Some result };
}

impl Typed for TypeHandle {
    ghost subject = { OfType };

    fn get_type<O, B, T: TypeTable>(&self, _ctx: &TypedProgram<O, B, T>) -> TypeHandle {
        *self
    }
}

impl Typed for Value {
    ghost subject = { OfValue };

    fn get_type<O, B, T: TypeTable>(&self, ctx: &TypedProgram<O, B, T>) -> TypeHandle {
        ctx.program().value_type(*self)
    }
}
