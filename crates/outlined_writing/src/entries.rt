//! Entries of the section.
ghost use Rattle.std.specs.Prelude.{◌≡◌, false, None};
ghost use Rattle.outlined_writing.specs.Bare.{AreNothing, IsNothing};

use indexmap::IndexSet;
use ir_hashing::TextKey;
use std::alloc::{AllocError, Global};

/// What stands beside an operation or a block and is outlined.
#[derive(Drop)]
pub struct Beside {
    /// The text of its note.
    pub note: Option<String>,
    /// The text of its origin. Equal ones are printed once.
    pub origin: Option<String>,
}

impl Beside {
    /// Whether anything is there.
    fn is_some(&self) -> bool
        ensures { IsNothing self.now → result ≡ false }
    {
        self.note.is_some() || self.origin.is_some()
    }
}

/// What stands beside the item that has this number, if anything does.
pub fn beside_of(beside: &[Beside], number: usize) -> Option<&Beside>
    ensures { AreNothing beside.now → result ≡ None }
{
    let found = beside.get(number)?;
    if found.is_some() { Some(found) } else { None }
}

/// What is said of a marked item.
#[derive(Drop)]
pub struct Entry<'a> {
    /// The given names of its own values, as they are printed, if one of these has a name.
    pub names: Option<String>,
    /// What stands beside it, if anything does.
    pub beside: Option<&'a Beside>,
}

impl<'a> Entry<'a> {
    /// The text of its note.
    pub fn note(&self) -> Option<&'a str> {
        match &self.beside?.note {
            Some(note) => Some(note.as_str()),
            None => None,
        }
    }

    /// The text of its origin.
    pub fn origin(&self) -> Option<&'a str> {
        match &self.beside?.origin {
            Some(origin) => Some(origin.as_str()),
            None => None,
        }
    }
}

/// The origins of entries, each once, in the order of their first mention.
pub fn origins_of<'a>(
    alloc: Global,
    key: TextKey,
    entries: &[Entry<'a>],
) -> Result<IndexSet<&'a str, TextKey>, AllocError> {
    let mut origins = IndexSet::with_hasher(alloc, key);
    for entry in entries {
        if let Some(origin) = entry.origin() {
            origins.insert(origin)?;
        }
    }
    Ok(origins)
}
