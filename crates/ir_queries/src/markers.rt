//! Types that stand for an interface, or for a kind of a dialect.
ghost use Rattle.std.specs.Prelude.{◌≡◌, ◌↔◌, true, Option, IsSome, option_copied};
ghost use Rattle.ir_names.specs.declared.interfaces.AttrInterface.{AttrInterface};
ghost use Rattle.ir_names.specs.declared.interfaces.OpInterface.{OpInterface};
ghost use Rattle.ir_names.specs.declared.interfaces.TypeInterface.{TypeInterface};

use ir_names::{AttrInterface, OpInterface, TypeInterface};
use ir_types::DialectTables;

/// A type that stands for an interface of operations.
pub trait OpInterfaceMarker {
    /// The interface.
    ghost INTERFACE: { OpInterface };

    /// The interface.
    const INTERFACE: OpInterface;
}

/// A type that stands for an interface of types.
pub trait TypeInterfaceMarker {
    /// The interface.
    ghost INTERFACE: { TypeInterface };

    /// The interface.
    const INTERFACE: TypeInterface;
}

/// A type that stands for an interface of attributes.
pub trait AttrInterfaceMarker {
    /// The interface.
    ghost INTERFACE: { AttrInterface };

    /// The interface.
    const INTERFACE: AttrInterface;
}

/// A type that stands for a kind of operations.
pub trait OpMarker<D: DialectTables> {
    /// The kind.
    ghost KIND: { D.OpKind };

    /// The kind.
    const KIND: D::OpKind;
}

/// What a type of one kind is made of.
pub trait TypeMarker<D: DialectTables> {
    /// The kind.
    ghost KIND: { D.TypeKind };

    /// The kind.
    const KIND: D::TypeKind;

    /// What a type is made of, if it is of the kind.
    ghost part: { D.TypeKey → Option Self };

    /// What a type is made of, if it is of the kind.
    fn of(key: &D::TypeKey) -> Option<&Self>
        ensures { option_copied result ≡ part key.now };

    /// There is such a part exactly where the type is of the kind.
    ghost of_kind: { (key : D.TypeKey) → (IsSome (part key) ↔ (D.TypeKind.eq (D.kind_of_type key) KIND ≡ true)) };
}

/// What an attribute of one kind is made of.
pub trait AttrMarker<D: DialectTables> {
    /// The kind.
    ghost KIND: { D.AttrKind };

    /// The kind.
    const KIND: D::AttrKind;

    /// What an attribute is made of, if it is of the kind.
    ghost part: { D.Attr → Option Self };

    /// What an attribute is made of, if it is of the kind.
    fn of(attr: &D::Attr) -> Option<&Self>
        ensures { option_copied result ≡ part attr.now };

    /// There is such a part exactly where the attribute is of the kind.
    ghost of_kind: { (attr : D.Attr) → (IsSome (part attr) ↔ (D.AttrKind.eq (D.kind_of_attr attr) KIND ≡ true)) };
}
