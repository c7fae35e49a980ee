//! Places in sources.
ghost use Rattle.std.specs.Prelude.{◌≡◌, option_map, OnOk, IfOk, true};
ghost use Rattle.std.specs.Fn.{FnReturnsAt};
ghost use Rattle.std.specs.Option.{option_eq};
ghost use Rattle.indexmap.specs.IndexSet.{insert_all};
ghost use Rattle.ir_locations.specs.Sources.{mentions, lent, distinct, only, found_in, see_all};
ghost use Rattle.ir_locations.specs.Unknown.{is_unknown};

use crate::found::{FoundSource, add_source};
use crate::source::Source;
use indexmap::IndexSet;
use std::alloc::{AllocError, Global};

/// Equal metadata, where there is some.
fn clone_option<A: PartialEq, F: Fn(&A) -> Result<A, AllocError>>(
    metadata: &Option<A>,
    clone_metadata: &F,
) -> Result<Option<A>, AllocError>
    requires callable { F.IsAlwaysCallable clone_metadata.now }
    requires copies { (x : A) (copy : A) →
        FnReturnsAt F.Fn clone_metadata.now x (Ok copy) → A.eq copy x ≡ true }
    ensures { IfOk result (λ copy. option_eq A.eq copy metadata.now ≡ true) }
{
    match metadata {
        None => Ok(None),
        Some(attribute) => {
            let copy = clone_metadata(attribute)?;
            Ok(Some(copy))
        }
    }
}

/// Where an operation or a block comes from, with attributes `A` as metadata.
#[derive(Debug, PartialEq, Eq, Hash, Drop)]
pub enum Location<A> {
    /// A place in a source.
    SrcPos {
        source: Source,
        line: u64,
        column: u64,
    },
    /// Several locations as one, as those of operations that a rewrite made one.
    Fused {
        metadata: Option<A>,
        locations: Vec<Location<A>>,
    },
    /// A location with a name.
    Named {
        name: String,
        child: Box<Location<A>>,
    },
    /// A location in a function, and where that was called.
    CallSite {
        callee: Box<Location<A>>,
        caller: Box<Location<A>>,
    },
    /// No source is known.
    Unknown,
}

impl<A> Location<A> {
    /// Adds the sources that the location mentions, each where it isn't among them.
    fn add_sources<'a>(&'a self, found: &mut IndexSet<&'a Source>) -> Result<(), AllocError>
        ensures { OnOk result (lent found.new.keys ≡
            insert_all ⟦<Source as PartialEq>⟧.eq (lent found.old.keys) (mentions self.now)) }
    {
        match self {
            Location::SrcPos { source, .. } => add_source(found, source),
            Location::Fused { locations, .. } => {
                for location in locations {
                    location.add_sources(found)?;
                }
                Ok(())
            }
            Location::Named { child, .. } => child.add_sources(found),
            Location::CallSite { callee, caller } => {
                callee.add_sources(found)?;
                caller.add_sources(found)?;
                Ok(())
            }
            Location::Unknown => Ok(()),
        }
    }

    /// The distinct sources that the location mentions, in the order in which each is mentioned first.
    pub fn sources(&self, alloc: Global) -> Result<Vec<&Source>, AllocError>
        ensures { IfOk result (λ found. lent found.items ≡
            distinct ⟦<Source as PartialEq>⟧.eq (mentions self.now)) }
    {
        let mut found = IndexSet::new(alloc);
        self.add_sources(&mut found)?;
        found.into_iter().collect(alloc)
    }

    /// Which sources the location mentions, after these.
    fn find_source<'a>(&'a self, found: FoundSource<'a>) -> FoundSource<'a>
        ensures { found_in result ≡
            see_all ⟦<Source as PartialEq>⟧.eq (found_in found.entry) (mentions self.entry.now) }
    {
        match self {
            Location::SrcPos { source, .. } => found.see(source),
            Location::Fused { locations, .. } => {
                let mut found = found;
                for location in locations {
                    found = location.find_source(found);
                }
                found
            }
            Location::Named { child, .. } => child.find_source(found),
            Location::CallSite { callee, caller } => {
                caller.find_source(callee.find_source(found))
            }
            Location::Unknown => found,
        }
    }

    /// The source, where the location mentions exactly one distinct source.
    #[tactic(auto, using(crate::proofs::SourceLemmas::only_distinct))]
    pub fn source(&self) -> Option<&Source>
        ensures { option_map (λ s. s.now) result ≡
            only (distinct ⟦<Source as PartialEq>⟧.eq (mentions self.now)) }
    {
        match self.find_source(FoundSource::Nowhere) {
            FoundSource::Nowhere => None,
            FoundSource::One(source) => Some(source),
            FoundSource::Several => None,
        }
    }

    /// Whether it is the unknown location.
    pub fn is_unknown(&self) -> bool
        ensures { result ≡ is_unknown self.now }
    {
        matches!(self, Location::Unknown)
    }
}

impl<A: PartialEq + Drop> Location<A> {
    /// A location that equals this one, whose metadata the given function copies.
    pub fn try_clone<F: Fn(&A) -> Result<A, AllocError>>(
        &self,
        alloc: Global,
        clone_metadata: &F,
    ) -> Result<Location<A>, AllocError>
        requires callable { F.IsAlwaysCallable clone_metadata.now }
        requires copies { (x : A) (copy : A) →
            FnReturnsAt F.Fn clone_metadata.now x (Ok copy) → A.eq copy x ≡ true }
        ensures { IfOk result (λ copy. ⟦<Location<A> as PartialEq>⟧.eq copy self.now ≡ true) }
    {
        match self {
            Location::SrcPos {
                source,
                line,
                column,
            } => {
                let source = source.try_clone()?;
                Ok(Location::SrcPos {
                    source,
                    line: *line,
                    column: *column,
                })
            }
            Location::Fused {
                metadata,
                locations,
            } => {
                let metadata = clone_option(metadata, clone_metadata)?;
                let mut copies = Vec::with_capacity(alloc, locations.len())?;
                for location in locations {
                    let copy = location.try_clone(alloc, clone_metadata)?;
                    copies.push(copy)?;
                }
                Ok(Location::Fused {
                    metadata,
                    locations: copies,
                })
            }
            Location::Named { name, child } => {
                let name = name.clone()?;
                let child = Box::new(alloc, child.try_clone(alloc, clone_metadata)?)?;
                Ok(Location::Named { name, child })
            }
            Location::CallSite { callee, caller } => {
                let callee = Box::new(alloc, callee.try_clone(alloc, clone_metadata)?)?;
                let caller = Box::new(alloc, caller.try_clone(alloc, clone_metadata)?)?;
                Ok(Location::CallSite { callee, caller })
            }
            Location::Unknown => Ok(Location::Unknown),
        }
    }
}
