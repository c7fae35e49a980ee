//! Making types of what they are made of.
ghost use Rattle.std.specs.Prelude.{◌≡◌, ◌↔◌, true, false, Ok, Some, IfOk, OnOk, OnErr};
ghost use Rattle.ir_base.specs.declared.types.TypeHandle.{TypeHandle};
ghost use Rattle.ir_types.specs.Interned.{key_at, passes, KeepsTypes, next_handle, has_key, handle_of, with_type};
ghost use Rattle.ir_queries.specs.TypedHandles.{typed_handle, untyped};

use crate::{TypeMarker, TypedHandle};
use ir_context::Context;
use ir_types::DialectTables;
use std::alloc::{AllocError, Global};
use std::marker::PhantomData;

/// What types of one kind are made of, to make types of it.
pub trait Type<D: DialectTables>: TypeMarker<D> + Sized {
    /// The key of the type that is made of it.
    ghost key: { Self → D.TypeKey };

    /// The key of the type that is made of it.
    fn into_key(self) -> D::TypeKey
        ensures { result ≡ key self };

    /// The type that is made of it is made of it.
    ghost part_of_key: { (x : Self) → Self.part (key x) ≡ Some x };
}

/// Making types of what they are made of.
pub trait Instantiate<D: DialectTables>: Type<D> {
    /// The handle of the type that is made of it.
    ///
    /// Where the context has an equal type, nothing changes and no memory is asked for.
    ///
    /// # Errors
    /// Without memory nothing is changed.
    fn instantiate(
        self,
        alloc: Global,
        ctx: &mut Context<D>,
    ) -> Result<TypedHandle<Self>, AllocError>
        ensures known { (ty : TypeHandle) → (kept : D.TypeKey) → key_at ctx.old.types ty ≡ Some kept
            → D.TypeKey.eq (Self.key self) kept ≡ true → (result ≡ Ok (typed_handle ty)) × (ctx.new ≡ ctx.old) }
        ensures fresh { has_key D.TypeKey.eq ctx.old.types (Self.key self) ≡ false
            → IfOk result (λ h. untyped h ≡ next_handle ctx.old.types) }
        ensures handle { IfOk result (λ h. untyped h ≡ handle_of D.TypeKey.eq ctx.old.types (Self.key self)) }
        ensures ok { OnOk result (ctx.new.types ≡ with_type D.TypeKey.eq ctx.old.types (Self.key self)) }
        ensures key { IfOk result (λ h. (kept : D.TypeKey) × (key_at ctx.new.types (untyped h) ≡ Some kept)
            × (D.TypeKey.eq (Self.key self) kept ≡ true)) }
        ensures same { IfOk result (λ h. (other : TypeHandle) → (kept : D.TypeKey)
            → key_at ctx.new.types other ≡ Some kept
            → ((other ≡ untyped h) ↔ (D.TypeKey.eq (Self.key self) kept ≡ true))) }
        ensures kind { IfOk result (λ h. passes (λ kept. D.TypeKind.eq (D.kind_of_type kept) Self.KIND) ctx.new.types
            (untyped h) ≡ true) }
        ensures keeps { KeepsTypes ctx.old.types ctx.new.types }
        ensures err { OnErr result (ctx.new ≡ ctx.old) }
        ensures program { ctx.new.program ≡ ctx.old.program };
}

impl<D: DialectTables, S: Type<D>> Instantiate<D> for S {
    fn instantiate(
        self,
        alloc: Global,
        ctx: &mut Context<D>,
    ) -> Result<TypedHandle<Self>, AllocError> {
        let handle = ctx.instantiate_key(alloc, self.into_key())?;
        Ok(TypedHandle {
            handle,
            of: PhantomData,
        })
    }
}
