//! Attributes under keys.
ghost use Rattle.std.specs.Prelude.{◌≡◌, ℕ, None, Some, IfOk, List, OnErr, OnOk, option_copied};
ghost use Rattle.std.specs.Borrow.{sem};
ghost use Rattle.std.specs.Option.{option_copied_mut};
ghost use Rattle.ir_names.specs.Identifier.{text_of};
ghost use Rattle.builtin_data.specs.Dicts.{HasSameMembers, SetsMember, member_at};
ghost use Rattle.builtin_data.specs.Lends.{lends_member};

use ir_names::Identifier;
use std::alloc::{AllocError, Global};
use std::collections::BTreeMap;

/// Attributes under keys, in the order of the keys' bytes. Two dictionaries are equal where they have equal attributes under
/// the same keys, whatever order they came in.
#[derive(Debug, PartialEq, Eq, Hash, Drop)]
pub struct DictAttr<A> {
    members: BTreeMap<String, A>,
}

impl<A> DictAttr<A> {
    /// The dictionary with no attribute.
    pub fn new(alloc: Global) -> DictAttr<A>
        ensures { (key : List ℕ) → member_at result key ≡ None }
    {
        DictAttr {
            members: BTreeMap::new(alloc),
        }
    }

    /// The attribute under a key.
    pub fn lookup(&self, key: &str) -> Option<&A>
        ensures { option_copied result ≡ member_at self.now key.now }
    {
        self.members.get(key)
    }

    /// The attribute under a key, to be changed. Each other key keeps what it leads to. No memory is asked for.
    pub fn lookup_mut(&mut self, key: &str) -> Option<&mut A>
        ensures* lends { sem 𝓛 (lends_member A.row self.entry key.now result) }
        ensures value { option_copied_mut result ≡ member_at self.old key.now }
    {
        self.members.get_mut(key)
    }
}

impl<A: Drop> DictAttr<A> {
    /// Puts an attribute under a key, and answers the one that was there.
    ///
    /// # Errors
    /// There may be no memory. Each key leads to what it led to then.
    pub fn insert(&mut self, key: Identifier, attr: A) -> Result<Option<A>, AllocError>
        ensures old { IfOk result (λ old. old ≡ member_at self.old (text_of key)) }
        ensures set { OnOk result (SetsMember self.old self.new (text_of key) (Some attr)) }
        ensures err { OnErr result (HasSameMembers self.old self.new) }
    {
        let old = self.members.insert(key.into_string(), attr)?;
        Ok(old)
    }

    /// Takes the attribute under a key out, and answers it. No memory is asked for.
    pub fn remove(&mut self, key: &str) -> Option<A>
        ensures old { result ≡ member_at self.old key.now }
        ensures removed { SetsMember self.old self.new key.now None }
    {
        self.members.remove(key)
    }
}
