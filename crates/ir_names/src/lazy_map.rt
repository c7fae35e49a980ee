//! A map that asks for memory at its first entry.
ghost use Rattle.std.specs.Prelude.{◌≡◌, ◌<◌, ◌^◌, ◌↔◌, [], IfOk, OnOk, OnErr, IfSome, IsTrue};
ghost use Rattle.std.specs.Prelude.{is_some, length, position, slice_get, option_copied, option_map};
ghost use Rattle.std.specs.Borrow.{sem};
ghost use Rattle.std.specs.Map.{keys_of, values_of, lookup, remove_entry};
ghost use Rattle.std.specs.Option.{option_copied_mut};
ghost use Rattle.std.specs.String.{string_eq};
ghost use Rattle.indexmap.specs.IndexMap.{insert_entry};
ghost use Rattle.ir_names.specs.Dictionary.{named_entries};
ghost use Rattle.ir_names.specs.LazyMap.{is_name};
ghost use Rattle.ir_names.specs.Lends.{lends_at};

use indexmap::IndexMap;
use indexmap::map::{Iter, Slice};
use std::alloc::{AllocError, Global};
use std::marker::Model;
use std::mem::size_of;

/// Values under names, in the order in which the names came. It takes the room of two words, and asks for memory at
/// its first entry.
#[derive(Drop)]
pub(crate) struct LazyMap<X> {
    map: Option<Box<IndexMap<String, X>>>,
    alloc: Global,
}

// Each operation has one, so it is to be small: the table of an `IndexMap` is behind the pointer.
const _: () = prove!(size_of::<LazyMap<u64>>() == 16);

impl<X> Model for LazyMap<X> {
    ghost use Rattle.std.specs.Prelude.{List, String};
    ghost use Rattle.std.specs.declared.alloc.Global.{Global};
    ghost use Rattle.ir_names.specs.LazyMap.{entries_of};

    ghost Value = { List (String Global × X) };

    ghost view = { λ m. entries_of m.map };
}

impl<X> LazyMap<X> {
    /// The map with no entry.
    pub(crate) fn new(alloc: Global) -> LazyMap<X>
        ensures { result ≡ [] }
    {
        LazyMap { map: None, alloc }
    }

    /// How many entries there are.
    pub(crate) fn len(&self) -> usize
        ensures len { result ≡ length self.now }
        ensures small { result < 2 ^ 63 }
    {
        match &self.map {
            Some(map) => map.len(),
            None => 0,
        }
    }

    /// Whether there is no entry.
    pub(crate) fn is_empty(&self) -> bool
        ensures { IsTrue result ↔ (length self.now ≡ 0) }
    {
        self.len() == 0
    }

    /// The value under a name.
    pub(crate) fn get(&self, name: &str) -> Option<&X>
        ensures { option_copied result ≡ lookup (is_name name.now) self.now }
    {
        match &self.map {
            Some(map) => map.get(name),
            None => None,
        }
    }

    /// The index of a name.
    pub(crate) fn get_index_of(&self, name: &str) -> Option<usize>
        ensures index { result ≡ position (is_name name.now) (keys_of self.now) }
        ensures found { is_some result ≡ is_some (lookup (is_name name.now) self.now) }
        ensures within { IfSome result (λ i. i < length self.now) }
        ensures value { IfSome result (λ i. slice_get (values_of self.now) i ≡ lookup (is_name name.now) self.now) }
    {
        match &self.map {
            Some(map) => map.get_index_of(name),
            None => None,
        }
    }

    /// The value at an index, to be changed. Nothing else changes.
    pub(crate) fn get_index_mut(&mut self, index: usize) -> Option<&mut X>
        ensures* lends { sem 𝓛 (lends_at X.row self.entry index result) }
        ensures value { option_copied_mut result ≡ slice_get (values_of self.old) index }
    {
        match &mut self.map {
            Some(map) => map.get_index_mut(index),
            None => None,
        }
    }

    /// Puts a value under a name, and answers the one that was there. A new name comes last.
    pub(crate) fn insert(&mut self, name: String, value: X) -> Result<Option<X>, AllocError>
    where
        X: Drop,
        ensures old { IfOk result (λ old. old ≡ lookup (string_eq name) self.old) }
        ensures entries { OnOk result (self.new ≡ insert_entry string_eq self.old name value) }
        ensures err { OnErr result (self.new ≡ self.old) }
    {
        match &mut self.map {
            Some(map) => Ok(map.insert(name, value)?),
            None => {
                let mut map = Box::new(self.alloc, IndexMap::new(self.alloc))?;
                let old = map.insert(name, value)?;
                self.map = Some(map);
                Ok(old)
            }
        }
    }

    /// Takes the value under a name out, and answers it. The others keep their order. No memory is asked for.
    pub(crate) fn remove(&mut self, name: &str) -> Option<X>
        ensures value { result ≡ lookup (is_name name.now) self.old }
        ensures entries { self.new ≡ remove_entry (is_name name.now) self.old }
    {
        match &mut self.map {
            Some(map) => map.shift_remove(name),
            None => None,
        }
    }

    /// The name and the value at an index.
    pub(crate) fn entry(&self, index: usize) -> Option<(&str, &X)>
        ensures { option_map (λ e. (e.0.now, e.1.now)) result ≡ slice_get (named_entries self.now) index }
    {
        match &self.map {
            Some(map) => entry_of(map, index),
            None => None,
        }
    }

    /// The names with their values, in their order.
    pub(crate) fn iter(&self) -> Iter<'_, String, X>
        ensures { result ≡ self.now }
    {
        match &self.map {
            Some(map) => map.iter(),
            None => Slice::new().iter(),
        }
    }
}

/// The name and the value at an index.
fn entry_of<X>(entries: &IndexMap<String, X>, index: usize) -> Option<(&str, &X)>
    ensures { option_map (λ e. (e.0.now, e.1.now)) result ≡ slice_get (named_entries entries.now.entries) index }
{
    let (name, value) = entries.get_index(index)?;
    Some((name.as_str(), value))
}
