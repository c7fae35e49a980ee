//! Attributes under names.
ghost use Rattle.std.specs.Prelude.{◌≡◌, ℕ, ◌%◌, ◌^◌, true, false, List, [], ◌∷◌, Some, IfOk, OnOk, OnErr, length, option_copied, option_map, slice_get, ◌==◌, IsPermutation, IsSorted};
ghost use Rattle.std.specs.Borrow.{sem};
ghost use Rattle.std.specs.Cmp.Lexicographic.{slice_cmp};
ghost use Rattle.std.specs.List.{list_all};
ghost use Rattle.std.specs.Map.Iter.{ShowsInOrder, deref_pair};
ghost use Rattle.std.specs.Option.{option_copied_mut};
ghost use Rattle.std.specs.Ordering.{nat_cmp};
ghost use Rattle.ir_names.specs.Dictionary.{all_entries, is_under, named, names_of, texts, contains_name, attribute_at, with_attribute, without_attribute, SetsAttribute, RemovesAttribute, AreNamesDistinct, AreNamesIdentifiers, AddsCopy, AreCopies, are_equal, agrees};
ghost use Rattle.ir_names.specs.Hashed.{entry_hash, hash_total};
ghost use Rattle.ir_names.specs.Identifier.{text_of};
ghost use Rattle.ir_names.specs.Lends.{lends_first, lends_attribute, with_first_attribute};
ghost use Rattle.ir_names.specs.Text.{is_identifier};

use crate::lazy_map::LazyMap;
use crate::{Dialects, Identifier};
use indexmap::map::Iter;
use std::alloc::{AllocError, Global};
use std::hash::{FoldHasher, Hash, Hasher};
use std::marker::Model;

/// An attribute under its name.
#[derive(Drop)]
struct Entry<D: Dialects> {
    name: String,
    attr: D::Attr,
}

/// Attributes under names, in the order in which the names came.
#[derive(Drop)]
pub struct AttributeDict<D: Dialects> {
    // Most operations have one attribute at most, and the others' map asks for memory only where there are more.
    first: Option<Entry<D>>,
    others: LazyMap<D::Attr>,
}

impl<D: Dialects> Model for AttributeDict<D> {
    ghost use Rattle.std.specs.Prelude.{ℕ, List};
    ghost use Rattle.ir_names.specs.Dictionary.{all_entries, AreEntries};

    ghost Value = { List (List ℕ × D.Attr) };

    ghost view = { λ d. all_entries d.first d.others };

    ghost invariant = { λ d. AreEntries (all_entries d.first d.others) };
}

impl<D: Dialects> AttributeDict<D> {
    /// The dictionary with no attribute.
    #[tactic(auto, unfolding(crate::specs::Dictionary::all_entries))]
    pub fn new(alloc: Global) -> AttributeDict<D>
        ensures { result ≡ [] }
    {
        AttributeDict {
            first: None,
            others: LazyMap::new(alloc),
        }
    }

    /// Tells that no name stands twice.
    pub fn know_distinct(&self)
        ensures { AreNamesDistinct self.now }
    {
        let _first = &self.first;
    }

    /// Tells that each name is the text of an identifier.
    pub fn know_identifiers(&self)
        ensures { AreNamesIdentifiers self.now }
    {
        let _first = &self.first;
    }

    /// How many attributes there are.
    #[tactic(auto, unfolding(crate::specs::Dictionary::all_entries))]
    pub fn len(&self) -> usize
        ensures { result ≡ length self.now }
    {
        match &self.first {
            Some(_) => self.others.len() + 1,
            None => self.others.len(),
        }
    }

    /// Whether there is no attribute.
    #[tactic(auto, unfolding(crate::specs::Dictionary::all_entries))]
    pub fn is_empty(&self) -> bool
        ensures { result ≡ (length self.now == 0) }
    {
        self.first.is_none() && self.others.is_empty()
    }

    /// The attribute under a name.
    #[tactic(auto, unfolding(crate::specs::Dictionary::all_entries))]
    pub fn get(&self, key: &str) -> Option<&D::Attr>
        ensures { option_copied result ≡ attribute_at self.now key.now }
    {
        match &self.first {
            None => self.others.get(key),
            Some(entry) => {
                if key == entry.name.as_str() {
                    return Some(&entry.attr);
                }
                self.others.get(key)
            }
        }
    }

    /// The attribute under a name, to be changed. It keeps its place, and nothing else changes.
    #[tactic(auto, unfolding(crate::specs::Dictionary::all_entries))]
    pub fn get_mut(&mut self, key: &str) -> Option<&mut D::Attr>
        ensures* lends { sem 𝓛
            (lends_attribute D.row D.OpKind.row D.Attr.row D.TypeKey.row D.OpKind.PartialEq D.Attr.Hash D.TypeKey.Hash
            self.entry key.now result) }
        ensures value { option_copied_mut result ≡ attribute_at self.old key.now }
    {
        if has_name(&self.first, key) {
            return attribute_mut(&mut self.first);
        }
        let index = self.others.get_index_of(key)?;
        self.others.get_index_mut(index)
    }

    /// Puts an attribute under a name, and answers the one that was there. A new name comes last.
    #[tactic(auto, unfolding(crate::specs::Dictionary::all_entries))]
    pub fn set(&mut self, key: Identifier, attr: D::Attr) -> Result<Option<D::Attr>, AllocError>
        ensures old { IfOk result (λ old. old ≡ attribute_at self.old (text_of key)) }
        ensures entries { OnOk result (self.new ≡ with_attribute self.old (text_of key) attr) }
        ensures set { OnOk result (SetsAttribute self.old self.new (text_of key) attr) }
        ensures err { OnErr result (self.new ≡ self.old) }
    {
        if has_name(&self.first, key.as_str()) {
            return Ok(replace_attribute(&mut self.first, attr));
        }
        if self.is_empty() {
            begin(&mut self.first, key, attr);
            return Ok(None);
        }
        self.others.insert(key.into_string(), attr)
    }

    /// Takes the attribute under a name out, and answers it. The others keep their order. No memory
    /// is asked for.
    #[tactic(auto, unfolding(crate::specs::Dictionary::all_entries))]
    pub fn remove(&mut self, key: &str) -> Option<D::Attr>
        ensures old { result ≡ attribute_at self.old key.now }
        ensures entries { self.new ≡ without_attribute self.old key.now }
        ensures removed { RemovesAttribute self.old self.new key.now }
    {
        if has_name(&self.first, key) {
            let first = self.first.take()?;
            return Some(first.attr);
        }
        self.others.remove(key)
    }

    /// The name and the attribute at an index, in the order in which the names came.
    #[tactic(auto, unfolding(crate::specs::Dictionary::all_entries))]
    pub fn entry(&self, index: usize) -> Option<(&str, &D::Attr)>
        ensures { option_map (λ e. (e.0.now, e.1.now)) result ≡ slice_get self.now index }
    {
        match &self.first {
            None => self.others.entry(index),
            Some(entry) => {
                if index == 0 {
                    return Some((entry.name.as_str(), &entry.attr));
                }
                self.others.entry(index - 1)
            }
        }
    }

    /// The names with their attributes, in the order in which the names came.
    #[tactic(auto, unfolding(crate::specs::Dictionary::all_entries))]
    pub fn iter(&self) -> Attributes<'_, D>
        ensures left { result ≡ self.now }
        ensures runs { ShowsInOrder (deref_pair {K = List ℕ} {X = D.Attr}) }
    {
        Attributes {
            first: self.first.as_ref(),
            others: self.others.iter(),
        }
    }

    /// The names, in the order in which they came.
    fn names(&self, alloc: Global) -> Result<Vec<&str>, AllocError>
        ensures { IfOk result (λ names. texts names.items ≡ names_of self.now) }
    {
        let mut names = Vec::with_capacity(alloc, self.len())?;
        for (name, _attr) in self.iter() {
            names.push(name)?;
        }
        Ok(names)
    }

    /// The names in the order of their bytes. Refused only where there is no memory for the list.
    pub fn keys_in_order(&self, alloc: Global) -> Result<Vec<&str>, AllocError>
        ensures permutation { IfOk result (λ names. IsPermutation (names_of self.now) (texts names.items)) }
        ensures sorted { IfOk result (λ names. IsSorted (slice_cmp nat_cmp) (texts names.items)) }
    {
        let mut names = self.names(alloc)?;
        names.sort_unstable();
        Ok(names)
    }

    /// Puts a copy of an attribute under a new name.
    fn add_copy(&mut self, alloc: Global, name: &str, attr: &D::Attr) -> Result<(), AllocError>
        requires identifier { is_identifier name.now ≡ true }
        requires new { contains_name self.old name.now ≡ false }
        ensures { OnOk result (AddsCopy D.Attr.eq self.old self.new (name.now, attr.now)) }
    {
        let attr = D::clone_attr(alloc, attr)?;
        self.set(Identifier::new(alloc, name)?, attr)?;
        Ok(())
    }

    /// A dictionary with the same names in the same order, and under each an attribute that equals
    /// this one's. Refused only where there is no memory for it, or for a copy of an attribute.
    pub fn clone(&self, alloc: Global) -> Result<AttributeDict<D>, AllocError>
        ensures copies { IfOk result (AreCopies D.Attr.eq self.now) }
        ensures equal { IfOk result (λ copy. are_equal D.Attr.eq copy self.now ≡ true) }
    {
        self.know_distinct();
        self.know_identifiers();
        let mut copy = AttributeDict::new(alloc);
        for (name, attr) in self.iter() {
            copy.add_copy(alloc, name, attr)?;
        }
        Ok(copy)
    }

    /// Whether the attribute equals the one under the name.
    fn agrees(&self, name: &str, attr: &D::Attr) -> bool
        ensures { result ≡ agrees D.Attr.eq self.now (name.now, attr.now) }
    {
        self.get(name).is_some_and(|held| attr == held)
    }

    /// Whether each attribute equals the other dictionary's under the same name.
    fn is_within(&self, other: &AttributeDict<D>) -> bool
        ensures { result ≡ list_all (agrees D.Attr.eq other.now) self.now }
    {
        for (name, attr) in self.iter() {
            if !other.agrees(name, attr) {
                return false;
            }
        }
        true
    }

    /// The hashes of the entries, added up.
    fn total_hash(&self) -> u64
        ensures { result ≡ hash_total D.Attr.hash_input self.now % 2 ^ 64 }
    {
        self.know_distinct();
        let mut total: u64 = 0;
        for (name, attr) in self.iter() {
            total = total.wrapping_add(entry_hash(name, attr));
        }
        total
    }
}

/// Whether there is an entry, and it has the name.
fn has_name<D: Dialects>(entry: &Option<Entry<D>>, name: &str) -> bool
    ensures { result ≡ is_under entry.now name.now }
{
    matches!(entry, Some(entry) if name == entry.name.as_str())
}

/// Puts an attribute in the place of the entry's, and answers that one.
fn replace_attribute<D: Dialects>(entry: &mut Option<Entry<D>>, attr: D::Attr) -> Option<D::Attr>
    ensures old { result ≡ option_map (λ e. e.attr) entry.old }
    ensures new { entry.new ≡ with_first_attribute entry.old attr }
{
    match entry {
        Some(entry) => Some(std::mem::replace(&mut entry.attr, attr)),
        None => None,
    }
}

/// Makes this the entry.
fn begin<D: Dialects>(entry: &mut Option<Entry<D>>, key: Identifier, attr: D::Attr)
    ensures { option_map named entry.new ≡ Some (text_of key, attr) }
{
    *entry = Some(Entry {
        name: key.into_string(),
        attr,
    });
}

/// The attribute of the entry, to be changed.
fn attribute_mut<D: Dialects>(entry: &mut Option<Entry<D>>) -> Option<&mut D::Attr>
    ensures* lends { sem 𝓛 (lends_first D.row D.OpKind.row D.Attr.row D.TypeKey.row entry.entry result) }
    ensures value { option_copied_mut result ≡ option_map (λ e. e.attr) entry.old }
{
    match entry {
        Some(entry) => Some(&mut entry.attr),
        None => None,
    }
}

/// The hash of a name with an attribute.
#[tactic(auto, unfolding(crate::specs::Hashed::entry_hash))]
fn entry_hash<X: Hash>(name: &str, attr: &X) -> u64
    ensures { result ≡ entry_hash name.now (X.hash_input attr.now) }
{
    let mut hasher = FoldHasher::default();
    name.hash(&mut hasher);
    attr.hash(&mut hasher);
    hasher.finish()
}

/// Two dictionaries are equal where they have equal attributes under the same names, in whatever
/// order.
impl<D: Dialects> PartialEq for AttributeDict<D> {
    ghost use Rattle.ir_names.specs.Dictionary.{are_equal};
    ghost use Rattle.ir_names.specs.Equal.{are_equal_symm, are_equal_trans};

    ghost eq = { are_equal D.Attr.eq };

    ghost laws = { record { symm = are_equal_symm D.Attr.Eq.laws; trans = are_equal_trans D.Attr.Eq.laws } };

    fn eq(&self, other: &AttributeDict<D>) -> bool {
        self.know_distinct();
        other.know_distinct();
        self.len() == other.len() && self.is_within(other)
    }
}

impl<D: Dialects> Eq for AttributeDict<D> {
    ghost use Rattle.std.specs.Cmp as cmp;
    ghost use Rattle.ir_names.specs.Equal.{are_equal_symm, are_equal_trans, are_equal_refl};

    ghost laws = { cmp.equiv (record { symm = are_equal_symm D.Attr.Eq.laws; trans = are_equal_trans D.Attr.Eq.laws })
        (are_equal_refl D.Attr.Eq.laws) };
}

/// Equal dictionaries have equal hashes: the order of the names does not matter.
impl<D: Dialects> Hash for AttributeDict<D> {
    ghost use Rattle.ir_names.specs.Hashed.{hash_input_of};
    ghost use Rattle.ir_names.specs.HashLaw.{hash_input_of-are_equal};

    ghost hash_input = { hash_input_of D.Attr.hash_input };

    ghost respects_eq = { hash_input_of-are_equal D.Attr.eq D.Attr.hash_input D.Attr.respects_eq };

    fn hash<H: Hasher>(&self, state: &mut H) {
        state.write_u64(self.total_hash());
    }
}

/// The entries of a dictionary that are left, in the order in which the names came.
#[derive(Drop)]
pub struct Attributes<'a, D: Dialects> {
    first: Option<&'a Entry<D>>,
    others: Iter<'a, String, D::Attr>,
}

impl<'a, D: Dialects> Model for Attributes<'a, D> {
    ghost use Rattle.std.specs.Prelude.{ℕ, List};
    ghost use Rattle.std.specs.Option.{option_copied};
    ghost use Rattle.ir_names.specs.Dictionary.{all_entries};

    ghost Value = { List (List ℕ × D.Attr) };

    ghost view = { λ s. all_entries (option_copied s.first) s.others };
}

impl<'a, D: Dialects> Iterator for Attributes<'a, D> {
    ghost use Rattle.std.specs.Iterator.{YieldsFirstBy, item_count};
    ghost use Rattle.std.specs.Map.Iter.{deref_pair};

    type Item = (&'a str, &'a D::Attr);

    ghost next_gives = { YieldsFirstBy deref_pair (λ s. s) };

    ghost remaining = { item_count (λ s. s) };

    #[tactic(auto, unfolding(crate::specs::Dictionary::all_entries))]
    fn next(&mut self) -> Option<(&'a str, &'a D::Attr)> {
        if let Some(entry) = self.first.take() {
            return Some((entry.name.as_str(), &entry.attr));
        }
        let (name, attr) = self.others.next()?;
        Some((name.as_str(), attr))
    }
}
