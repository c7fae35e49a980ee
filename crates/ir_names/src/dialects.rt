//! The closed types of a dialect.
ghost use Rattle.std.specs.Prelude.{◌≡◌, true, IfOk};

use crate::TypeHandle;
use std::alloc::{AllocError, Global};
use std::hash::Hash;

/// The closed types of a dialect. A unit type implements it.
pub trait Dialects {
    /// The kinds of operations.
    type OpKind: Copy + Eq;

    /// The attributes of operations.
    type Attr: Eq + Hash + Drop;

    /// The types of values, as they are interned.
    type TypeKey: Eq + Hash + Drop;

    /// An attribute that equals the given one.
    fn clone_attr(alloc: Global, attr: &Self::Attr) -> Result<Self::Attr, AllocError>
        ensures { IfOk result (λ copy. Self.Attr.eq copy attr.now ≡ true) };

    /// The type that an attribute says it has.
    fn attr_type(attr: &Self::Attr) -> Option<TypeHandle>;
}
