//! Names of dialects and of their operations, attributes and types.
ghost use Rattle.std.specs.Prelude.{◌≡◌, ◌↔◌, true, false, Some, Err, IfOk};
ghost use Rattle.ir_names.specs.Text.{is_identifier};

use crate::{Identifier, InvalidIdentifier};
use std::alloc::{AllocError, Global};
use std::fmt;

/// The name of a dialect.
#[derive(Clone, Copy, Debug, PartialEq, Eq, Hash)]
pub struct DialectName {
    text: &'static str,
    ghost valid: { is_identifier text.now ≡ true },
}

impl DialectName {
    ghost use Rattle.ir_names.specs.Identifier.{text_of};
    ghost use Rattle.ir_names.specs.Names.{dialect_text};

    /// The name with this text, which is an identifier.
    pub fn new(text: &'static str) -> DialectName
        requires { is_identifier text.now ≡ true }
        ensures { dialect_text result ≡ text.now }
    {
        DialectName { text }
    }

    /// The name with this text. A text that is no identifier is refused.
    pub fn try_new(text: &'static str) -> Result<DialectName, InvalidIdentifier>
        ensures text { IfOk result (λ name. dialect_text name ≡ text.now) }
        ensures invalid { (result ≡ Err (record {})) ↔ (is_identifier text.now ≡ false) }
    {
        if !Identifier::is_valid(text) {
            return Err(InvalidIdentifier);
        }
        Ok(DialectName { text })
    }

    /// Its text.
    pub fn as_str(self) -> &'static str
        ensures text { result.now ≡ dialect_text self }
        ensures valid { is_identifier result.now ≡ true }
    {
        self.text
    }

    /// The identifier with the same text.
    pub fn to_identifier(self, alloc: Global) -> Result<Identifier, AllocError>
        ensures { IfOk result (λ id. text_of id ≡ dialect_text self) }
    {
        Identifier::new(alloc, self.text)
    }
}

impl fmt::Display for DialectName {
    ghost use Rattle.ir_names.specs.Names.{dialect_text};

    ghost output = { λ name. Some (dialect_text name) };

    fn fmt<W: fmt::Write>(&self, f: &mut fmt::Formatter<W>) -> fmt::Result {
        f.write_str(self.text)
    }
}

/// The name of a kind of operations, in its dialect.
#[derive(Clone, Copy, Debug, PartialEq, Eq, Hash)]
pub struct OpName {
    text: &'static str,
    ghost valid: { is_identifier text.now ≡ true },
}

impl OpName {
    ghost use Rattle.ir_names.specs.Identifier.{text_of};
    ghost use Rattle.ir_names.specs.Names.{op_text};

    /// The name with this text, which is an identifier.
    pub fn new(text: &'static str) -> OpName
        requires { is_identifier text.now ≡ true }
        ensures { op_text result ≡ text.now }
    {
        OpName { text }
    }

    /// The name with this text. A text that is no identifier is refused.
    pub fn try_new(text: &'static str) -> Result<OpName, InvalidIdentifier>
        ensures text { IfOk result (λ name. op_text name ≡ text.now) }
        ensures invalid { (result ≡ Err (record {})) ↔ (is_identifier text.now ≡ false) }
    {
        if !Identifier::is_valid(text) {
            return Err(InvalidIdentifier);
        }
        Ok(OpName { text })
    }

    /// Its text.
    pub fn as_str(self) -> &'static str
        ensures text { result.now ≡ op_text self }
        ensures valid { is_identifier result.now ≡ true }
    {
        self.text
    }

    /// The identifier with the same text.
    pub fn to_identifier(self, alloc: Global) -> Result<Identifier, AllocError>
        ensures { IfOk result (λ id. text_of id ≡ op_text self) }
    {
        Identifier::new(alloc, self.text)
    }
}

impl fmt::Display for OpName {
    ghost use Rattle.ir_names.specs.Names.{op_text};

    ghost output = { λ name. Some (op_text name) };

    fn fmt<W: fmt::Write>(&self, f: &mut fmt::Formatter<W>) -> fmt::Result {
        f.write_str(self.text)
    }
}

/// The name of a kind of attributes, in its dialect.
#[derive(Clone, Copy, Debug, PartialEq, Eq, Hash)]
pub struct AttrName {
    text: &'static str,
    ghost valid: { is_identifier text.now ≡ true },
}

impl AttrName {
    ghost use Rattle.ir_names.specs.Identifier.{text_of};
    ghost use Rattle.ir_names.specs.Names.{attr_text};

    /// The name with this text, which is an identifier.
    pub fn new(text: &'static str) -> AttrName
        requires { is_identifier text.now ≡ true }
        ensures { attr_text result ≡ text.now }
    {
        AttrName { text }
    }

    /// The name with this text. A text that is no identifier is refused.
    pub fn try_new(text: &'static str) -> Result<AttrName, InvalidIdentifier>
        ensures text { IfOk result (λ name. attr_text name ≡ text.now) }
        ensures invalid { (result ≡ Err (record {})) ↔ (is_identifier text.now ≡ false) }
    {
        if !Identifier::is_valid(text) {
            return Err(InvalidIdentifier);
        }
        Ok(AttrName { text })
    }

    /// Its text.
    pub fn as_str(self) -> &'static str
        ensures text { result.now ≡ attr_text self }
        ensures valid { is_identifier result.now ≡ true }
    {
        self.text
    }

    /// The identifier with the same text.
    pub fn to_identifier(self, alloc: Global) -> Result<Identifier, AllocError>
        ensures { IfOk result (λ id. text_of id ≡ attr_text self) }
    {
        Identifier::new(alloc, self.text)
    }
}

impl fmt::Display for AttrName {
    ghost use Rattle.ir_names.specs.Names.{attr_text};

    ghost output = { λ name. Some (attr_text name) };

    fn fmt<W: fmt::Write>(&self, f: &mut fmt::Formatter<W>) -> fmt::Result {
        f.write_str(self.text)
    }
}

/// The name of a kind of types, in its dialect.
#[derive(Clone, Copy, Debug, PartialEq, Eq, Hash)]
pub struct TypeName {
    text: &'static str,
    ghost valid: { is_identifier text.now ≡ true },
}

impl TypeName {
    ghost use Rattle.ir_names.specs.Identifier.{text_of};
    ghost use Rattle.ir_names.specs.Names.{type_text};

    /// The name with this text, which is an identifier.
    pub fn new(text: &'static str) -> TypeName
        requires { is_identifier text.now ≡ true }
        ensures { type_text result ≡ text.now }
    {
        TypeName { text }
    }

    /// The name with this text. A text that is no identifier is refused.
    pub fn try_new(text: &'static str) -> Result<TypeName, InvalidIdentifier>
        ensures text { IfOk result (λ name. type_text name ≡ text.now) }
        ensures invalid { (result ≡ Err (record {})) ↔ (is_identifier text.now ≡ false) }
    {
        if !Identifier::is_valid(text) {
            return Err(InvalidIdentifier);
        }
        Ok(TypeName { text })
    }

    /// Its text.
    pub fn as_str(self) -> &'static str
        ensures text { result.now ≡ type_text self }
        ensures valid { is_identifier result.now ≡ true }
    {
        self.text
    }

    /// The identifier with the same text.
    pub fn to_identifier(self, alloc: Global) -> Result<Identifier, AllocError>
        ensures { IfOk result (λ id. text_of id ≡ type_text self) }
    {
        Identifier::new(alloc, self.text)
    }
}

impl fmt::Display for TypeName {
    ghost use Rattle.ir_names.specs.Names.{type_text};

    ghost output = { λ name. Some (type_text name) };

    fn fmt<W: fmt::Write>(&self, f: &mut fmt::Formatter<W>) -> fmt::Result {
        f.write_str(self.text)
    }
}

/// What a kind of operations is called in texts: `DIALECT.NAME`.
#[derive(Clone, Copy, Debug, PartialEq, Eq, Hash)]
pub struct OpId {
    pub dialect: DialectName,
    pub name: OpName,
}

impl fmt::Display for OpId {
    ghost use Rattle.ir_names.specs.Names.{op_id_text, dotted};

    ghost output = { λ id. Some (dotted (op_id_text id)) };

    fn fmt<W: fmt::Write>(&self, f: &mut fmt::Formatter<W>) -> fmt::Result {
        f.write_str(self.dialect.text)?;
        f.write_str(".")?;
        f.write_str(self.name.text)
    }
}

/// What a kind of attributes is called in texts: `DIALECT.NAME`.
#[derive(Clone, Copy, Debug, PartialEq, Eq, Hash)]
pub struct AttrId {
    pub dialect: DialectName,
    pub name: AttrName,
}

impl fmt::Display for AttrId {
    ghost use Rattle.ir_names.specs.Names.{attr_id_text, dotted};

    ghost output = { λ id. Some (dotted (attr_id_text id)) };

    fn fmt<W: fmt::Write>(&self, f: &mut fmt::Formatter<W>) -> fmt::Result {
        f.write_str(self.dialect.text)?;
        f.write_str(".")?;
        f.write_str(self.name.text)
    }
}

/// What a kind of types is called in texts: `DIALECT.NAME`.
#[derive(Clone, Copy, Debug, PartialEq, Eq, Hash)]
pub struct TypeId {
    pub dialect: DialectName,
    pub name: TypeName,
}

impl fmt::Display for TypeId {
    ghost use Rattle.ir_names.specs.Names.{type_id_text, dotted};

    ghost output = { λ id. Some (dotted (type_id_text id)) };

    fn fmt<W: fmt::Write>(&self, f: &mut fmt::Formatter<W>) -> fmt::Result {
        f.write_str(self.dialect.text)?;
        f.write_str(".")?;
        f.write_str(self.name.text)
    }
}
