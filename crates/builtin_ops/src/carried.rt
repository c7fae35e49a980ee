//! What new operations and blocks carry.
ghost use Rattle.std.specs.Prelude.{◌≡◌, ◌∷◌, [], IfOk};
ghost use Rattle.ir_names.specs.Identifier.{text_of};
ghost use Rattle.builtin_ops.specs.Keys.{constant_value};
ghost use Rattle.builtin_ops.specs.Made.{HoldName, HoldNameAndType, bare_notes, carrying};

use crate::keys;
use builtin_tables::BuiltinDialect;
use ir_context::{BlockNotes, OperationData, OperationNotes};
use ir_names::{AttributeDict, Identifier, TypeHandle};
use ir_types::DialectTables;
use std::alloc::{AllocError, Global};

/// What an operation of the kind with these attributes carries that comes from no source.
pub(crate) fn carried<D: DialectTables>(
    kind: D::OpKind,
    attributes: AttributeDict<D>,
) -> OperationData<D>
    ensures { result ≡ carrying D.nowhere kind attributes }
{
    let notes = OperationNotes {
        attributes,
        loc: D::unknown_location(),
    };
    OperationData::new(kind, notes)
}

/// What a block without attributes and label carries that comes from no source.
pub(crate) fn bare_notes<D: DialectTables>(alloc: Global) -> BlockNotes<D>
    ensures { result ≡ bare_notes D.nowhere }
{
    BlockNotes {
        attributes: AttributeDict::new(alloc),
        loc: D::unknown_location(),
        label: None,
    }
}

/// One attribute, which holds a name.
pub(crate) fn name_alone<D: BuiltinDialect>(
    alloc: Global,
    name: Identifier,
) -> Result<AttributeDict<D>, AllocError>
    ensures { IfOk result (λ attributes. HoldName D.held_identifier attributes (text_of name)) }
{
    let mut attributes = AttributeDict::new(alloc);
    let key = Identifier::new(alloc, keys::SYMBOL_NAME)?;
    attributes.set(key, D::from_identifier(name))?;
    Ok(attributes)
}

/// Two attributes, which hold a name and a function's type.
pub(crate) fn name_and_type<D: BuiltinDialect>(
    alloc: Global,
    name: Identifier,
    ty: TypeHandle,
) -> Result<AttributeDict<D>, AllocError>
    ensures { IfOk result (λ attributes. HoldNameAndType D.held_identifier D.held_type attributes (text_of name) ty) }
{
    let mut attributes = name_alone(alloc, name)?;
    let key = Identifier::new(alloc, keys::FUNCTION_TYPE)?;
    attributes.set(key, D::from_type(ty))?;
    Ok(attributes)
}

/// One attribute, a constant's value.
pub(crate) fn value_alone<D: DialectTables>(
    alloc: Global,
    value: D::Attr,
) -> Result<AttributeDict<D>, AllocError>
    ensures { IfOk result (λ attributes. attributes ≡ (constant_value, value) ∷ []) }
{
    let mut attributes = AttributeDict::new(alloc);
    let key = Identifier::new(alloc, keys::CONSTANT_VALUE)?;
    attributes.set(key, value)?;
    Ok(attributes)
}
