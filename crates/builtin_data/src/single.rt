//! Attributes that hold one thing, or nothing.
ghost use Rattle.std.specs.Prelude.{◌≡◌};
ghost use Rattle.std.specs.String.{string_bytes};
ghost use Rattle.ir_names.specs.Identifier.{text_of};

use ir_names::{Identifier, TypeHandle};

/// An identifier.
#[derive(Debug, PartialEq, Eq, Hash, Drop)]
pub struct IdentifierAttr {
    name: Identifier,
}

impl IdentifierAttr {
    /// An attribute that holds the identifier.
    pub fn new(name: Identifier) -> IdentifierAttr
        ensures { result.name ≡ name }
    {
        IdentifierAttr { name }
    }

    /// The identifier.
    pub fn as_identifier(&self) -> &Identifier
        ensures { text_of result.now ≡ text_of self.now.name }
    {
        &self.name
    }
}

impl From<Identifier> for IdentifierAttr {
    ghost from_gives = { λ name attr. attr.name ≡ name };

    fn from(name: Identifier) -> IdentifierAttr {
        IdentifierAttr { name }
    }
}

impl From<IdentifierAttr> for Identifier {
    ghost from_gives = { λ attr name. name ≡ attr.name };

    fn from(attr: IdentifierAttr) -> Identifier {
        attr.name
    }
}

/// A text.
#[derive(Debug, PartialEq, Eq, Hash, Drop)]
pub struct StringAttr {
    text: String,
}

impl StringAttr {
    /// An attribute that holds the text.
    pub fn new(text: String) -> StringAttr
        ensures { result.text ≡ text }
    {
        StringAttr { text }
    }

    /// The text.
    pub fn as_str(&self) -> &str
        ensures { result.now ≡ string_bytes self.now.text }
    {
        self.text.as_str()
    }

    /// The text, without the attribute.
    pub fn into_string(self) -> String
        ensures { result ≡ self.text }
    {
        self.text
    }
}

impl From<String> for StringAttr {
    ghost from_gives = { λ text attr. attr.text ≡ text };

    fn from(text: String) -> StringAttr {
        StringAttr { text }
    }
}

/// True or false.
#[derive(Clone, Copy, Debug, PartialEq, Eq, Hash)]
pub struct BoolAttr {
    value: bool,
}

impl BoolAttr {
    /// An attribute that holds the truth value.
    pub fn new(value: bool) -> BoolAttr
        ensures { result.value ≡ value }
    {
        BoolAttr { value }
    }
}

impl From<bool> for BoolAttr {
    ghost from_gives = { λ value attr. attr.value ≡ value };

    fn from(value: bool) -> BoolAttr {
        BoolAttr { value }
    }
}

impl From<BoolAttr> for bool {
    ghost from_gives = { λ attr value. value ≡ attr.value };

    fn from(attr: BoolAttr) -> bool {
        attr.value
    }
}

/// A type.
#[derive(Clone, Copy, Debug, PartialEq, Eq, Hash)]
pub struct TypeAttr {
    ty: TypeHandle,
}

impl TypeAttr {
    /// An attribute that holds the type.
    pub fn new(ty: TypeHandle) -> TypeAttr
        ensures { result.ty ≡ ty }
    {
        TypeAttr { ty }
    }

    /// The type that it holds.
    pub fn get_type(&self) -> TypeHandle
        ensures { result ≡ self.now.ty }
    {
        self.ty
    }
}

impl From<TypeHandle> for TypeAttr {
    ghost from_gives = { λ ty attr. attr.ty ≡ ty };

    fn from(ty: TypeHandle) -> TypeAttr {
        TypeAttr { ty }
    }
}

impl From<TypeAttr> for TypeHandle {
    ghost from_gives = { λ attr ty. ty ≡ attr.ty };

    fn from(attr: TypeAttr) -> TypeHandle {
        attr.ty
    }
}

/// Nothing but that it is there.
#[derive(Clone, Copy, Debug, PartialEq, Eq, Hash)]
pub struct UnitAttr;

impl UnitAttr {
    /// The attribute.
    pub fn new() -> UnitAttr {
        UnitAttr
    }
}
