//! How many distinct sources a location mentions.
ghost use Rattle.std.specs.Prelude.{◌≡◌, OnOk};
ghost use Rattle.indexmap.specs.IndexSet.{insert_key};
ghost use Rattle.ir_locations.specs.Sources.{lent, found_in, see};

use crate::source::Source;
use indexmap::IndexSet;
use std::alloc::AllocError;

/// Adds a source to those that were found, where it isn't among them.
pub fn add_source<'a>(
    found: &mut IndexSet<&'a Source>,
    source: &'a Source,
) -> Result<(), AllocError>
    ensures { OnOk result (lent found.new.keys ≡
        insert_key ⟦<Source as PartialEq>⟧.eq (lent found.old.keys) source.now) }
{
    found.insert(source)?;
    Ok(())
}

/// The distinct sources that were met: none, one, or several.
#[derive(Clone, Copy)]
pub enum FoundSource<'a> {
    Nowhere,
    One(&'a Source),
    Several,
}

impl<'a> FoundSource<'a> {
    /// The same with one more source.
    pub fn see(self, source: &'a Source) -> FoundSource<'a>
        ensures { found_in result ≡ see ⟦<Source as PartialEq>⟧.eq (found_in self.entry) source.now }
    {
        match self {
            FoundSource::Nowhere => FoundSource::One(source),
            FoundSource::One(first) if source == first => self,
            _ => FoundSource::Several,
        }
    }
}
