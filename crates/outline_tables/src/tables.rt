//! Entries by their indices.
ghost use Rattle.std.specs.Prelude.{◌≡◌, ◌++◌, ◌∷◌, [], None, Some, IfErr, IfOk, is_some, OnErr, OnOk, option_copied, option_map};
ghost use Rattle.ir_outlines.specs.Section.{attribute_of, beside_of, entry_among};
ghost use Rattle.outline_tables.specs.declared.errors.OutlineError.TheVariants.{Memory};
ghost use Rattle.outline_tables.specs.Tables.{entry_of, reference_of, said_beside, section_of, HasAttributes, LacksAttribute, LeadsNowhere, RefusesEntry};

use crate::entries::{Entry, Outlined, Reference};
use crate::errors::OutlineError;
use indexmap::IndexMap;
use ir_hashing::TextKey;
use ir_names::Identifier;
use std::alloc::Global;

/// The entries of a section by their indices, in the order in which they were defined.
///
/// Indices are a text's, so the table hashes by a key that has read the text.
#[derive(Drop)]
pub struct OutlineTable<A, L> {
    entries: IndexMap<u64, Entry<A, L>, TextKey>,
}

impl<A: Drop, L: Drop> OutlineTable<A, L> {
    /// No entries. The key is that of the text which has the section.
    pub fn new(alloc: Global, key: TextKey) -> OutlineTable<A, L>
        ensures { section_of result ≡ [] }
    {
        OutlineTable {
            entries: IndexMap::with_hasher(alloc, key),
        }
    }

    /// The entry with an index, if there is one.
    pub fn entry(&self, index: u64) -> Option<&Entry<A, L>>
        ensures { option_map entry_of (option_copied result) ≡ entry_among (section_of self.now) index }
    {
        self.entries.get(&index)
    }

    /// Whether an entry has this index.
    pub fn contains(&self, index: u64) -> bool
        ensures { result ≡ is_some (entry_among (section_of self.now) index) }
    {
        self.entry(index).is_some()
    }

    /// Puts in an entry, as the last one, where none has its index.
    fn put(&mut self, index: u64, entry: Entry<A, L>) -> Result<(), OutlineError>
        requires { entry_among (section_of self.old) index ≡ None }
        ensures ok { OnOk result (section_of self.new ≡ section_of self.old ++ (index, entry_of entry) ∷ []) }
        ensures memory { IfErr result (λ error. error ≡ Memory) }
        ensures same { OnErr result (section_of self.new ≡ section_of self.old) }
    {
        match self.entries.insert(index, entry) {
            Ok(_) => Ok(()),
            Err(_) => Err(OutlineError::Memory),
        }
    }

    /// Puts in an entry, as the last one.
    ///
    /// # Errors
    /// `OutlineRedefined` exactly where an entry has this index, else where memory is refused. The entries are as before then.
    pub fn define(&mut self, index: u64, entry: Entry<A, L>) -> Result<(), OutlineError>
        ensures ok { OnOk result (section_of self.new ≡ section_of self.old ++ (index, entry_of entry) ∷ []) }
        ensures fresh { OnOk result (entry_among (section_of self.old) index ≡ None) }
        ensures refused { IfErr result (RefusesEntry (section_of self.old) index) }
        ensures same { OnErr result (section_of self.new ≡ section_of self.old) }
    {
        if self.entry(index).is_some() {
            return Err(OutlineError::OutlineRedefined);
        }
        self.put(index, entry)
    }

    /// The attribute that stands under a key, or that its mark leads to.
    fn attribute<'a>(&'a self, reference: &'a Reference<A>) -> Option<&'a A>
        ensures { option_copied result ≡ attribute_of (section_of self.now) (reference_of reference.now) }
    {
        match reference {
            Reference::Here(attribute) => Some(attribute),
            Reference::AtMark(mark) => match self.entry(*mark) {
                Some(Entry::Single(attribute)) => Some(attribute),
                _ => None,
            },
        }
    }

    /// The attributes under keys, their marks looked up.
    ///
    /// # Errors
    /// The first mark that leads to no single attribute, or where memory is refused.
    fn attributes<'a>(
        &'a self,
        alloc: Global,
        references: &'a [(Identifier, Reference<A>)],
    ) -> Result<Vec<(&'a Identifier, &'a A)>, OutlineError>
        ensures ok { IfOk result (λ found. HasAttributes (section_of self.now) references.now found.items) }
        ensures refused { IfErr result (LacksAttribute (section_of self.now) references.now) }
    {
        let mut found = Vec::new(alloc);
        for member in references {
            match self.attribute(&member.1) {
                Some(attribute) => found.push((&member.0, attribute))?,
                None => return Err(OutlineError::UnknownInEntry(found.len())),
            }
        }
        Ok(found)
    }

    /// What stands beside an item with a mark. Several items may have one mark.
    ///
    /// # Errors
    /// `UnknownOutline` exactly where the mark leads to no entry in brackets. Where it leads to one: `UnknownInEntry` with the first key
    /// whose mark leads to no single attribute, or that memory was refused before that.
    pub fn resolve(&self, alloc: Global, mark: u64) -> Result<Outlined<'_, A, L>, OutlineError>
        ensures ok { IfOk result (λ found. beside_of (section_of self.now) (Some mark) ≡ Some (said_beside found)) }
        ensures refused { IfErr result (LeadsNowhere (section_of self.now) mark) }
    {
        match self.entry(mark) {
            Some(
                Entry::Bracketed {
                    location,
                    attributes,
                },
            ) => match self.attributes(alloc, attributes) {
                Ok(attributes) => Ok(Outlined {
                    location: location.as_ref(),
                    attributes,
                }),
                Err(error) => Err(error),
            },
            Some(Entry::Single(_)) | None => Err(OutlineError::UnknownOutline),
        }
    }
}
