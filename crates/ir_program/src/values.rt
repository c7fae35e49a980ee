//! What values lead to.
ghost use Rattle.std.specs.Prelude.{◌≡◌, Some, map, is_some, IsSome};
ghost use Rattle.ir_entities.specs.Links.{AreDistinctNumbers};
ghost use Rattle.ir_entities.specs.Uses.{key_of};
ghost use Rattle.ir_program.specs.declared.records.Definition.{Definition};
ghost use Rattle.ir_program.specs.Program.{definition_at, definitions_of, numbered, type_at, IsLiveValue};

use crate::program::Program;
use crate::records::Definition;
use crate::{DefiningEntity, Value};
use ir_base::TypeHandle;

impl<O, B> Program<O, B> {
    /// Whether the value stands at its definer.
    pub fn has_value(&self, value: Value) -> bool
        ensures { result ≡ is_some (type_at self.now value) }
    {
        self.definition(value).is_some()
    }

    /// The type of a value.
    pub fn value_type(&self, value: Value) -> TypeHandle
        requires { IsLiveValue self.now value }
        ensures { type_at self.now value ≡ Some result }
    {
        match self.definition(value) {
            Some(definition) => definition.ty,
            None => unreachable!(),
        }
    }

    /// The number of the value's thread among the uses of values.
    pub(crate) fn thread(&self, value: Value) -> usize
        requires { IsLiveValue self.now value }
        ensures { key_of self.now.values result ≡ Some value }
    {
        let _values = &self.values;
        match self.definition(value) {
            Some(definition) => definition.thread,
            None => unreachable!(),
        }
    }

    /// What the value's definer keeps of it.
    pub(crate) fn definition(&self, value: Value) -> Option<Definition>
        ensures { result ≡ definition_at self.now value }
    {
        numbered(self.definitions(value.definer()), value.number())
    }

    /// The results or arguments of a definer, none where it is not there.
    fn definitions(&self, definer: DefiningEntity) -> &[Definition]
        ensures exact { result.now ≡ definitions_of self.now definer }
        ensures distinct { AreDistinctNumbers (map (λ (d : Definition). d.number) result.now) }
    {
        match definer {
            DefiningEntity::Op(op) if self.forest.has_op(op.key) => &self.forest.op(op.key).results,
            DefiningEntity::Block(block) if self.forest.has_block(block.key) => {
                &self.forest.block(block.key).arguments
            }
            _ => &[],
        }
    }
}

/// The definition with this number.
fn numbered(definitions: &[Definition], number: u64) -> Option<Definition>
    requires distinct { AreDistinctNumbers (map (λ (d : Definition). d.number) definitions.now) }
    ensures { result ≡ numbered number definitions.now }
{
    // The numbers rise, unless definitions were moved since they were made.
    if let Ok(index) = definitions.binary_search_by_key(&number, |definition| definition.number) {
        return Some(definitions[index]);
    }
    definitions
        .iter()
        .find(|definition| definition.number == number)
        .copied()
}
