//! Types of integers.
ghost use Rattle.std.specs.Prelude.{◌≡◌, IfOk, OnErr, OnOk, Some};
ghost use Rattle.ir_base.specs.declared.types.TypeHandle.{TypeHandle};
ghost use Rattle.ir_types.specs.Interned.{KeepsTypes, handle_of, with_type};
ghost use Rattle.builtin_types.specs.Got.{held_at};

use crate::BuiltinTypes;
use builtin_data::IntegerType;
use ir_context::Context;
use ir_names::{Signedness, TypeHandle};
use std::alloc::{AllocError, Global};

/// `IntegerType::get`.
pub trait GetIntegerType {
    /// The handle of the type of integers of so many bits, with a sign or without.
    ///
    /// Where the context has that type, nothing changes and no memory is asked for. A new type comes behind the others.
    ///
    /// # Errors
    /// Without memory nothing is changed.
    fn get<D: BuiltinTypes>(
        alloc: Global,
        ctx: &mut Context<D>,
        width: u32,
        signedness: Signedness,
    ) -> Result<TypeHandle, AllocError>
        ensures is { IfOk result (λ ty. held_at D.integer_in ctx.new.types ty
            ≡ Some (record { signedness = signedness; width = width })) }
        ensures only { IfOk result (λ ty. (other : TypeHandle) → held_at D.integer_in ctx.new.types other
            ≡ Some (record { signedness = signedness; width = width }) → other ≡ ty) }
        ensures handle { IfOk result (λ ty. ty ≡ handle_of D.TypeKey.eq ctx.old.types
            (D.integer_key (record { signedness = signedness; width = width }))) }
        ensures types { OnOk result (ctx.new.types ≡ with_type D.TypeKey.eq ctx.old.types
            (D.integer_key (record { signedness = signedness; width = width }))) }
        ensures keeps { KeepsTypes ctx.old.types ctx.new.types }
        ensures program { ctx.new.program ≡ ctx.old.program }
        ensures err { OnErr result (ctx.new ≡ ctx.old) };
}

impl GetIntegerType for IntegerType {
    fn get<D: BuiltinTypes>(
        alloc: Global,
        ctx: &mut Context<D>,
        width: u32,
        signedness: Signedness,
    ) -> Result<TypeHandle, AllocError> {
        let integer = IntegerType { signedness, width };
        ctx.instantiate_key(alloc, D::from_integer_type(integer))
    }
}
