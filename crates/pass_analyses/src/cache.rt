//! What is kept of analyses.
ghost use Rattle.std.specs.Prelude.{◌≡◌, ◌∷◌, ◌++◌, [], None, option_copied, OnOk, OnErr, IfOk, Some, ◌<◌, slice_get, take, length};
ghost use Rattle.pass_analyses.specs.Cached.{cached, is_listed, kinds_of, of_kinds};

use indexmap::IndexMap;
use ir_program::{Operation, Ptr};
use std::alloc::{AllocError, AllocFailed, Global};
use std::hash::Hash;

/// Analyses by their kinds and operations, in the order in which they came.
#[derive(Drop)]
pub struct AnalysisCache<K: Eq + Hash + Drop, E: Drop> {
    pub(crate) entries: IndexMap<(K, Ptr<Operation>), E>,
}

impl<K: Copy + Eq + Hash + Drop, E: Drop> AnalysisCache<K, E> {
    /// No analyses.
    pub(crate) fn new(alloc: Global) -> AnalysisCache<K, E>
        ensures { result.entries.entries ≡ [] }
    {
        AnalysisCache {
            entries: IndexMap::new(alloc),
        }
    }

    /// The analysis of this kind of an operation, if it is cached.
    pub fn get(&self, kind: K, op: Ptr<Operation>) -> Option<&E>
        ensures { option_copied result ≡ cached K.eq self.now.entries.entries kind op }
    {
        self.entries.get(&(kind, op))
    }

    /// Puts in one that isn't there.
    pub(crate) fn put(
        &mut self,
        kind: K,
        op: Ptr<Operation>,
        analysis: E,
    ) -> Result<(), AllocFailed<((K, Ptr<Operation>), E)>>
        requires { cached K.eq self.old.entries.entries kind op ≡ None }
        ensures ok { OnOk result (self.new.entries.entries ≡ self.old.entries.entries ++ ((kind, op), analysis) ∷ []) }
        ensures err { OnErr result (self.new.entries.entries ≡ self.old.entries.entries) }
    {
        self.entries.insert((kind, op), analysis)?;
        Ok(())
    }

    /// How many there are.
    pub(crate) fn len(&self) -> usize
        ensures { result ≡ length self.now.entries.entries }
    {
        self.entries.len()
    }

    /// Keeps so many that came first.
    pub(crate) fn truncate(&mut self, len: usize)
        ensures { self.new.entries.entries ≡ take len self.old.entries.entries }
    {
        self.entries.truncate(len);
    }

    /// Keeps those of these kinds.
    pub(crate) fn retain(&mut self, kinds: &[K])
        ensures { self.new.entries.entries ≡ of_kinds K.eq kinds.now self.old.entries.entries }
    {
        self.entries.retain(
            |key: &(K, Ptr<Operation>), value: &mut E| -> bool
                ensures { (result ≡ is_listed K.eq kinds.entry.now key.now.0) × (value.new ≡ value.old) }
            { is_in(kinds, key.0) },
        );
    }

    /// The kind of the entry at this index.
    fn kind_at(&self, index: usize) -> K
        requires { index < length self.now.entries.entries }
        ensures { slice_get (kinds_of self.now.entries.entries) index ≡ Some result }
    {
        match self.entries.get_index(index) {
            Some((key, _)) => key.0,
            None => unreachable!(),
        }
    }

    /// The kinds of all.
    pub(crate) fn kinds(&self, alloc: Global) -> Result<Vec<K>, AllocError>
        ensures { IfOk result (λ v. v.items ≡ kinds_of self.now.entries.entries) }
    {
        let mut kinds = Vec::new(alloc);
        for index in 0..self.entries.len() {
            kinds.push(self.kind_at(index))?;
        }
        Ok(kinds)
    }
}

/// Whether a kind is in the list.
pub(crate) fn is_in<K: Copy + Eq>(kinds: &[K], kind: K) -> bool
    ensures { result ≡ is_listed K.eq kinds.now kind }
{
    kinds.iter().any(|listed| kind == *listed)
}
