//! The type that has one value.
ghost use Rattle.std.specs.Prelude.{◌≡◌, true, IfOk, OnErr, OnOk, Some};
ghost use Rattle.ir_base.specs.declared.types.TypeHandle.{TypeHandle};
ghost use Rattle.ir_types.specs.Interned.{KeepsTypes, handle_of, key_at, with_type};

use crate::BuiltinTypes;
use builtin_data::UnitType;
use ir_context::Context;
use ir_names::TypeHandle;
use std::alloc::{AllocError, Global};

/// `UnitType::get`.
pub trait GetUnitType {
    /// The handle of the type that has one value.
    ///
    /// Where the context has that type, nothing changes and no memory is asked for. A new type comes behind the others.
    ///
    /// # Errors
    /// Without memory nothing is changed.
    fn get<D: BuiltinTypes>(alloc: Global, ctx: &mut Context<D>) -> Result<TypeHandle, AllocError>
        ensures is { IfOk result (λ ty. (kept : D.TypeKey) × (key_at ctx.new.types ty ≡ Some kept)
            × (D.TypeKey.eq D.unit_key kept ≡ true)) }
        ensures only { IfOk result (λ ty. (other : TypeHandle) (kept : D.TypeKey)
            → key_at ctx.new.types other ≡ Some kept → D.TypeKey.eq D.unit_key kept ≡ true → other ≡ ty) }
        ensures handle { IfOk result (λ ty. ty ≡ handle_of D.TypeKey.eq ctx.old.types D.unit_key) }
        ensures types { OnOk result (ctx.new.types ≡ with_type D.TypeKey.eq ctx.old.types D.unit_key) }
        ensures keeps { KeepsTypes ctx.old.types ctx.new.types }
        ensures program { ctx.new.program ≡ ctx.old.program }
        ensures err { OnErr result (ctx.new ≡ ctx.old) };
}

impl GetUnitType for UnitType {
    fn get<D: BuiltinTypes>(alloc: Global, ctx: &mut Context<D>) -> Result<TypeHandle, AllocError> {
        ctx.instantiate_key(alloc, D::from_unit_type())
    }
}
