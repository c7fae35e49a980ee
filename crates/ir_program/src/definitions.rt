//! The definitions of an operation's results or of a block's arguments.
ghost use Rattle.std.specs.Prelude.{◌≡◌, ℕ, ◌≤◌, ◌<◌, length, Some, OnOk, OnErr, IfSome, slice_get};
ghost use Rattle.ir_entities.specs.Uses.{IsDefined, NamesDefinition};
ghost use Rattle.ir_program.specs.Making.{InsertsDefinition, RemovesDefinition};

use crate::Value;
use crate::records::Definition;
use ir_base::TypeHandle;
use ir_entities::Uses;
use smallvec::SmallVec;
use std::alloc::AllocError;

/// Defines a value, and puts its definition at an index of its definer's.
pub(crate) fn insert_definition(
    values: &mut Uses<Value>,
    definitions: &mut SmallVec<Definition, 1>,
    index: usize,
    value: Value,
    ty: TypeHandle,
) -> Result<(), AllocError>
    requires { index ≤ length definitions.old.items }
    ensures inserted { OnOk result
        (InsertsDefinition values.old values.new definitions.old.items definitions.new.items index value ty) }
    ensures values_err { OnErr result (values.new ≡ values.old) }
    ensures definitions_err { OnErr result (definitions.new.items ≡ definitions.old.items) }
{
    definitions.reserve(1)?;
    let thread = values.define(value)?;
    let definition = Definition {
        number: value.number(),
        ty,
        thread,
    };
    if definitions.insert(index, definition).is_err() {
        unreachable!();
    }
    Ok(())
}

/// Takes away the definition at an index, whose value no place names.
pub(crate) fn remove_definition(
    values: &mut Uses<Value>,
    definitions: &mut SmallVec<Definition, 1>,
    index: usize,
) -> Definition
    requires within { index < length definitions.old.items }
    requires defined { (d : Definition) → slice_get definitions.old.items index ≡ Some d
        → IsDefined values.old d.thread }
    requires unused { (d : Definition) (p : ℕ) → slice_get definitions.old.items index ≡ Some d
        → NamesDefinition values.old p d.thread → ⊥ }
    ensures removed { RemovesDefinition values.old values.new definitions.old.items definitions.new.items index }
    ensures answer { slice_get definitions.old.items index ≡ Some result }
{
    let definition = definitions.remove(index);
    values.forget(definition.thread);
    definition
}
