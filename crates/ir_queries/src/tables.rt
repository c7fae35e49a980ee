//! What the tables of a dialect say of its kinds, types and attributes.
ghost use Rattle.std.specs.Prelude.{◌≡◌};
ghost use Rattle.ir_names.specs.declared.interfaces.AttrInterface.TheVariants.{OutlinedAttr};
ghost use Rattle.ir_types.specs.Interned.{passes};

use crate::{AttrInterfaceMarker, OpInterfaceMarker, OpMarker, TypeInterfaceMarker};
use ir_context::Context;
use ir_names::{AttrInterface, TypeHandle};
use ir_types::DialectTables;

/// Whether operations of a kind implement the interface that `I` stands for.
pub fn op_impls<D: DialectTables, I: OpInterfaceMarker>(kind: D::OpKind) -> bool
    ensures { result ≡ D.op_has kind I.INTERFACE }
{
    D::op_implements(kind, I::INTERFACE)
}

/// Whether operations of the kind that `T` stands for implement the interface that `I` stands for.
pub fn op_impls_static<D: DialectTables, T: OpMarker<D>, I: OpInterfaceMarker>() -> bool
    ensures { result ≡ D.op_has T.KIND I.INTERFACE }
{
    D::op_implements(T::KIND, I::INTERFACE)
}

/// Whether an attribute implements the interface that `I` stands for.
pub fn attr_impls<D: DialectTables, I: AttrInterfaceMarker>(attr: &D::Attr) -> bool
    ensures { result ≡ D.attr_has attr.now I.INTERFACE }
{
    D::attr_implements(attr, I::INTERFACE)
}

/// Whether a type implements the interface that `I` stands for. A handle that leads to no type implements none.
pub fn type_impls<D: DialectTables, I: TypeInterfaceMarker>(
    ty: TypeHandle,
    ctx: &Context<D>,
) -> bool
    ensures { result ≡ passes (λ key. D.type_has key I.INTERFACE) ctx.now.types ty }
{
    ctx.types().implements(ty, I::INTERFACE)
}

/// The type that an attribute says it has.
pub fn attr_type<D: DialectTables>(attr: &D::Attr) -> Option<TypeHandle>
    ensures { result ≡ D.type_of_attr attr.now }
{
    D::type_of(attr)
}

/// Whether an attribute is printed behind the text.
pub fn attr_should_outline<D: DialectTables>(attr: &D::Attr) -> bool
    ensures { result ≡ D.attr_has attr.now OutlinedAttr }
{
    D::attr_implements(attr, AttrInterface::OutlinedAttr)
}
