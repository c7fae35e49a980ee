//! Handles of types of which something is known.
ghost use Rattle.std.specs.Prelude.{◌≡◌, ◌↔◌, true, Some, IfOk, IfErr, IsOk};
ghost use Rattle.ir_names.specs.Names.{type_id_text};
ghost use Rattle.ir_types.specs.Interned.{IsKnown, key_at, passes};
ghost use Rattle.ir_queries.specs.Parts.{part_at, kind_text_at, unknown_text};

use crate::{TypeInterfaceMarker, TypeMarker, type_impls};
use ir_context::Context;
use ir_names::{DialectName, TypeHandle, TypeId, TypeName};
use ir_types::{DialectTables, TypeInterfaceHandleErr, TypedHandleErr};
use std::marker::PhantomData;

/// The handle of a type of the kind that `T` stands for.
#[derive_where(Clone, Copy, Debug, PartialEq, Eq, Hash)]
pub struct TypedHandle<T> {
    pub(crate) handle: TypeHandle,
    #[derive_where(skip)]
    pub(crate) of: PhantomData<T>,
}

impl<T> TypedHandle<T> {
    ghost use Rattle.ir_queries.specs.TypedHandles.{untyped};

    /// The handle as one of a type of the kind.
    ///
    /// # Errors
    /// Refused exactly where the type is of another kind, or the handle leads to no type. Of the latter the error says
    /// `unknown.type`.
    pub fn from_handle<D: DialectTables>(
        ty: TypeHandle,
        ctx: &Context<D>,
    ) -> Result<TypedHandle<T>, TypedHandleErr>
    where
        T: TypeMarker<D>,
        ensures exact { IsOk result ↔ (passes (λ key. D.TypeKind.eq (D.kind_of_type key) T.KIND) ctx.now.types ty
            ≡ true) }
        ensures handle { IfOk result (λ h. untyped h ≡ ty) }
        ensures expected { IfErr result (λ e. type_id_text e.expected ≡ D.type_text T.KIND) }
        ensures found { IfErr result (λ e. type_id_text e.found ≡ kind_text_at
            (λ key. D.type_text (D.kind_of_type key)) ctx.now.types ty) }
    {
        if ctx.types().has_kind(ty, T::KIND) {
            return Ok(TypedHandle {
                handle: ty,
                of: PhantomData,
            });
        }
        Err(TypedHandleErr {
            expected: D::type_id(T::KIND),
            found: id_of_type(ty, ctx),
        })
    }

    /// The handle without what is known of its type.
    pub fn to_handle(self) -> TypeHandle
        ensures { result ≡ untyped self }
    {
        self.handle
    }

    /// What the type is made of.
    pub fn deref<D: DialectTables>(self, ctx: &Context<D>) -> &T
    where
        T: TypeMarker<D>,
        requires { passes (λ key. D.TypeKind.eq (D.kind_of_type key) T.KIND) ctx.now.types (untyped self) ≡ true }
        ensures { part_at T.part ctx.now.types (untyped self) ≡ Some result.now }
    {
        T::of(ctx.type_key(self.handle).unwrap()).unwrap()
    }
}

/// The handle of a type that implements the interface that `I` stands for.
#[derive_where(Clone, Copy, Debug, PartialEq, Eq, Hash)]
pub struct TypeInterfaceHandle<I> {
    handle: TypeHandle,
    #[derive_where(skip)]
    of: PhantomData<I>,
}

impl<I: TypeInterfaceMarker> TypeInterfaceHandle<I> {
    ghost use Rattle.ir_queries.specs.TypedHandles.{untyped, plain};

    /// The handle as one of a type that implements the interface.
    ///
    /// # Errors
    /// Refused exactly where the type doesn't implement it, or the handle leads to no type. Of the latter the error says
    /// `unknown.type`.
    pub fn from_handle<D: DialectTables>(
        ty: TypeHandle,
        ctx: &Context<D>,
    ) -> Result<TypeInterfaceHandle<I>, TypeInterfaceHandleErr>
        ensures exact { IsOk result ↔ (passes (λ key. D.type_has key I.INTERFACE) ctx.now.types ty ≡ true) }
        ensures handle { IfOk result (λ h. plain h ≡ ty) }
        ensures interface { IfErr result (λ e. e.interface ≡ I.INTERFACE) }
        ensures found { IfErr result (λ e. type_id_text e.found ≡ kind_text_at
            (λ key. D.type_text (D.kind_of_type key)) ctx.now.types ty) }
    {
        if type_impls::<D, I>(ty, ctx) {
            return Ok(TypeInterfaceHandle {
                handle: ty,
                of: PhantomData,
            });
        }
        Err(TypeInterfaceHandleErr {
            interface: I::INTERFACE,
            found: id_of_type(ty, ctx),
        })
    }

    /// The handle of a type of some kind as one of a type that implements the interface.
    ///
    /// # Errors
    /// Refused exactly where `from_handle` refuses the handle of the type.
    pub fn try_from_typed<D: DialectTables, T>(
        handle: TypedHandle<T>,
        ctx: &Context<D>,
    ) -> Result<TypeInterfaceHandle<I>, TypeInterfaceHandleErr>
        ensures exact { IsOk result ↔ (passes (λ key. D.type_has key I.INTERFACE) ctx.now.types (untyped handle)
            ≡ true) }
        ensures handle { IfOk result (λ h. plain h ≡ untyped handle) }
        ensures interface { IfErr result (λ e. e.interface ≡ I.INTERFACE) }
        ensures found { IfErr result (λ e. type_id_text e.found ≡ kind_text_at
            (λ key. D.type_text (D.kind_of_type key)) ctx.now.types (untyped handle)) }
    {
        TypeInterfaceHandle::from_handle(handle.to_handle(), ctx)
    }

    /// The handle without what is known of its type.
    pub fn to_handle(self) -> TypeHandle
        ensures { result ≡ plain self }
    {
        self.handle
    }

    /// The key of the type.
    pub fn deref<D: DialectTables>(self, ctx: &Context<D>) -> &D::TypeKey
        requires { IsKnown ctx.now.types (plain self) }
        ensures { key_at ctx.now.types (plain self) ≡ Some result.now }
    {
        ctx.type_key(self.handle).unwrap()
    }
}

/// What the kind of a type is called, `unknown.type` where the handle leads to none.
fn id_of_type<D: DialectTables>(ty: TypeHandle, ctx: &Context<D>) -> TypeId
    ensures { type_id_text result ≡ kind_text_at (λ key. D.type_text (D.kind_of_type key)) ctx.now.types ty }
{
    match ctx.type_key(ty) {
        Some(key) => D::type_id(D::type_kind(key)),
        None => unknown_id(),
    }
}

/// What an error says of a handle that leads to no type.
fn unknown_id() -> TypeId
    ensures { type_id_text result ≡ unknown_text }
{
    TypeId {
        dialect: DialectName::new("unknown"),
        name: TypeName::new("type"),
    }
}
