//! Attributes that have a type.
ghost use Rattle.std.specs.Prelude.{◌≡◌, ◌↔◌, true, IsOk, IsSome, Some};
ghost use Rattle.ir_names.specs.declared.interfaces.AttrInterface.TheVariants as interface;

use ir_context::Context;
use ir_names::{AttrInterface, TypeHandle};
use ir_queries::AttrInterfaceMarker;
use ir_types::DialectTables;
use std::convert::Infallible;

/// A dialect whose table tells which attributes have a type.
pub trait TypedAttributes: DialectTables + Sized {
    ghost use Rattle.ir_names.specs.declared.interfaces.AttrInterface.TheVariants.{TypedAttr};

    /// Exactly those attributes have a type that implement `TypedAttr`.
    ghost typed: { (attr : Self.Attr) → (IsSome (Self.type_of_attr attr) ↔ (Self.attr_has attr TypedAttr ≡ true)) };
}

/// The attribute has a type.
pub struct TypedAttrInterface;

impl AttrInterfaceMarker for TypedAttrInterface {
    ghost INTERFACE = { interface.TypedAttr };

    const INTERFACE: AttrInterface = AttrInterface::TypedAttr;
}

impl TypedAttrInterface {
    /// Each attribute is accepted.
    pub fn verify<D: DialectTables>(_attr: &D::Attr, _ctx: &Context<D>) -> Result<(), Infallible>
        ensures { IsOk result }
    {
        Ok(())
    }

    /// The type of the attribute.
    pub fn get_type<D: TypedAttributes>(attr: &D::Attr) -> TypeHandle
        requires { D.attr_has attr.now interface.TypedAttr ≡ true }
        ensures { D.type_of_attr attr.now ≡ Some result }
    {
        match D::type_of(attr) {
            Some(ty) => ty,
            None => unreachable!(),
        }
    }
}

/// There is a constant of the attribute: an operation that gives it as its result.
pub struct MaterializableAttr;

impl AttrInterfaceMarker for MaterializableAttr {
    ghost INTERFACE = { interface.MaterializableAttr };

    const INTERFACE: AttrInterface = AttrInterface::MaterializableAttr;
}

impl MaterializableAttr {
    /// Each attribute is accepted.
    pub fn verify<D: DialectTables>(_attr: &D::Attr, _ctx: &Context<D>) -> Result<(), Infallible>
        ensures { IsOk result }
    {
        Ok(())
    }

    /// The type of the attribute, which is that of the constant's result.
    pub fn get_type<D: TypedAttributes>(attr: &D::Attr) -> TypeHandle
        requires { D.attr_has attr.now interface.MaterializableAttr ≡ true }
        ensures { D.type_of_attr attr.now ≡ Some result }
    {
        TypedAttrInterface::get_type::<D>(attr)
    }
}
