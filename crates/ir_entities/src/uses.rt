//! Which places name which definitions.
//!
//! A place is where a definition is named: an index of a user. The places that name a definition
//! form its thread, a list in one table of links, so that a place goes from one definition to
//! another in constant time. Only `reserve`, `define` and `add` ask for memory.

ghost use Rattle.std.specs.Prelude.{◌≡◌, ◌≢◌, ◌↔◌, ◌^◌, ◌<◌, ◌≤◌, ◌||◌, ℕ, true, false, [], Some, None, IfOk, OnOk, OnErr, IsTrue, MatchOption, length, slice_set};
ghost use Rattle.slab.specs.Slab.{ContainsKey, HasRoomFor};
ghost use Rattle.ir_entities.specs.Links.{has, list_at, IsLinked, IsUnlinked};
ghost use Rattle.ir_entities.specs.Uses.{key_of, listed_of, place_of, spot_of, IsDefined, IsPlace, NamesDefinition, SetsKey, SetsPlace, AreNamingPlaces, IsCountOf, naming, at_index, renamed};
ghost use Rattle.ir_entities.specs.Threads.{AreThreads, counted, definition_at, keys_of};

use crate::siblings::{Forward, Siblings};
use slab::Slab;
use std::alloc::{AllocError, Global};
use std::marker::Model;

/// Where a place stands: at an index of a user.
#[derive(Clone, Copy, Debug, PartialEq, Eq)]
pub struct Spot {
    pub user: usize,
    pub index: usize,
}

/// A definition: its key, and how many places name it.
#[derive(Clone, Copy)]
struct Defined<K> {
    key: K,
    uses: usize,
}

/// The definitions, and the places that name them.
#[derive(Drop)]
pub struct Uses<K> {
    definitions: Slab<Defined<K>>,
    places: Slab<Spot>,
    // A list for each definition: the places that name it.
    threads: Siblings,
}

impl<K> Model for Uses<K> {
    ghost use Rattle.ir_entities.specs.Uses.{Uses as Named};
    ghost use Rattle.ir_entities.specs.Threads.{AreThreads, ThreadsHoldPlaces, keys_of, places_from, threads_from};

    ghost Value = { Named K };

    ghost view = { λ u. record {
      definitions = keys_of u.definitions.slots;
      places = places_from 0 u.threads.lists u.places.slots;
      threads = threads_from 0 u.threads.lists u.definitions.slots;
    } };

    ghost invariant = { λ u. AreThreads u.definitions.slots u.threads.lists
        × ThreadsHoldPlaces u.places.slots u.threads.lists };
}

/// The places that name a definition.
#[derive(Drop)]
pub struct UsesOf<'a> {
    rest: Forward<'a>,
}

impl<'a> Model for UsesOf<'a> {
    ghost use Rattle.std.specs.Prelude.{List, ℕ};
    ghost use Rattle.ir_entities.specs.Links.{list_at, items_from};

    ghost Value = { List ℕ };

    ghost view = { λ s. items_from s.rest.at (list_at s.rest.siblings.now.lists s.rest.list) };
}

impl<'a> Iterator for UsesOf<'a> {
    ghost use Rattle.std.specs.Iterator.{YieldsFirst, item_count};

    type Item = usize;

    ghost next_gives = { YieldsFirst (λ s. s) };

    ghost remaining = { item_count (λ s. s) };

    fn next(&mut self) -> Option<usize> {
        self.rest.next()
    }
}

impl<K: Copy> Uses<K> {
    /// No definition and no place.
    pub fn new(alloc: Global) -> Self
        ensures definitions { result.definitions ≡ [] }
        ensures places { result.places ≡ [] }
    {
        Uses {
            definitions: Slab::new(alloc),
            places: Slab::new(alloc),
            threads: Siblings::new(alloc),
        }
    }

    /// Makes room for so many definitions and so many places more: the next so many calls of `define` and of `add` ask for
    /// no memory.
    ///
    /// # Errors
    /// There may be no memory. Room that was made stays.
    pub fn reserve(&mut self, definitions: usize, places: usize) -> Result<(), AllocError>
        ensures same { self.new ≡ self.old }
    {
        self.definitions.reserve(definitions)?;
        self.places.reserve(places)?;
        self.threads.reserve(places, definitions)
    }

    /// Adds a definition that no place names, under a number that was not in use.
    pub fn define(&mut self, key: K) -> Result<usize, AllocError>
        ensures fresh { IfOk result (λ d. key_of self.old d ≡ None) }
        ensures defined { IfOk result (λ d. SetsKey self.old self.new d (Some key)) }
        ensures unused { IfOk result (λ d. (p : ℕ) → NamesDefinition self.new p d → ⊥) }
        ensures places { self.new.places ≡ self.old.places }
        ensures err { OnErr result (self.new ≡ self.old) }
    {
        make_room_for_definition(&mut self.definitions, &mut self.threads)?;
        Ok(self.definitions.insert_reserved(Defined { key, uses: 0 }))
    }

    /// Takes a definition that no place names out of use.
    pub fn forget(&mut self, definition: usize)
        requires defined { IsDefined self.old definition }
        requires unused { (p : ℕ) → NamesDefinition self.old p definition → ⊥ }
        ensures gone { SetsKey self.old self.new definition None }
        ensures places { self.new.places ≡ self.old.places }
    {
        self.definitions.remove(definition);
    }

    /// What a place names is a definition in use.
    pub fn know_named(&self)
        ensures { (p d : ℕ) → NamesDefinition self.now p d → IsDefined self.now d }
    {
        let _places = &self.places;
    }

    /// Tells that the numbers of places in use are below some number that a `usize` holds. It does nothing.
    pub fn know_few(&self)
        ensures { (n : ℕ) × (n < 2 ^ 64) × ((p : ℕ) → IsPlace self.now p → p < n) }
    {
        self.threads.know_members();
        let _nodes = self.threads.nodes();
    }

    /// The key of a definition.
    pub fn key(&self, definition: usize) -> K
        requires { IsDefined self.now definition }
        ensures { key_of self.now definition ≡ Some result }
    {
        self.definitions[definition].key
    }

    /// The definition that a place names.
    pub fn definition(&self, place: usize) -> usize
        requires { IsPlace self.now place }
        ensures named { NamesDefinition self.now place result }
        ensures defined { IsDefined self.now result }
    {
        self.threads.know_members();
        match self.threads.list(place) {
            Some(definition) => definition,
            None => unreachable!(),
        }
    }

    /// Where a place stands.
    pub fn spot(&self, place: usize) -> Spot
        requires { IsPlace self.now place }
        ensures { spot_of (place_of self.now place) ≡ Some result }
    {
        self.places[place]
    }

    /// Adds a place that names a definition, under a number that was not in use.
    pub fn add(&mut self, definition: usize, spot: Spot) -> Result<usize, AllocError>
        requires { IsDefined self.old definition }
        ensures fresh { IfOk result (λ p. place_of self.old p ≡ None) }
        ensures added { IfOk result (λ p. SetsPlace self.old self.new p
            (Some (record { definition = definition; user = spot.user; index = spot.index }))) }
        ensures definitions { self.new.definitions ≡ self.old.definitions }
        ensures err { OnErr result (self.new ≡ self.old) }
    {
        make_room_for_place(&mut self.places, &mut self.threads)?;
        let place = self.places.insert_reserved(spot);
        put(&mut self.definitions, &mut self.threads, definition, place);
        Ok(place)
    }

    /// Takes a place out of use.
    pub fn remove(&mut self, place: usize)
        requires { IsPlace self.old place }
        ensures gone { SetsPlace self.old self.new place None }
        ensures definitions { self.new.definitions ≡ self.old.definitions }
    {
        take(&mut self.definitions, &mut self.threads, place);
        self.places.remove(place);
    }

    /// Makes a place name this definition.
    pub fn rename(&mut self, place: usize, definition: usize)
        requires place { IsPlace self.old place }
        requires definition { IsDefined self.old definition }
        ensures renamed { SetsPlace self.old self.new place (naming definition (place_of self.old place)) }
        ensures definitions { self.new.definitions ≡ self.old.definitions }
    {
        take(&mut self.definitions, &mut self.threads, place);
        put(&mut self.definitions, &mut self.threads, definition, place);
    }

    /// Moves a place to another index of its user.
    pub fn set_index(&mut self, place: usize, index: usize)
        requires { IsPlace self.old place }
        ensures moved { SetsPlace self.old self.new place (at_index index (place_of self.old place)) }
        ensures definitions { self.new.definitions ≡ self.old.definitions }
    {
        self.places[place].index = index;
    }

    /// Makes each place that names `from` name `to`, in one step for each of these places.
    pub fn replace_all(&mut self, from: usize, to: usize)
        requires from { IsDefined self.old from }
        requires to { IsDefined self.old to }
        ensures renamed { (p : ℕ) → place_of self.new p ≡ renamed from to (place_of self.old p) }
        ensures definitions { self.new.definitions ≡ self.old.definitions }
    {
        if from != to {
            merge(&mut self.definitions, &mut self.threads, from, to);
        }
    }

    /// How many places name a definition, in constant time.
    pub fn count(&self, definition: usize) -> usize
        requires { IsDefined self.now definition }
        ensures count { IsCountOf self.now definition result }
        ensures listed { result ≡ length (listed_of self.now definition) }
    {
        self.threads.know_members();
        self.definitions[definition].uses
    }

    /// Whether a place names the definition.
    pub fn is_used(&self, definition: usize) -> bool
        requires { IsDefined self.now definition }
        ensures { IsTrue result ↔ ((p : ℕ) × NamesDefinition self.now p definition) }
    {
        self.first(definition).is_some()
    }

    /// A place that names the definition, if there is one.
    pub fn first(&self, definition: usize) -> Option<usize>
        requires { IsDefined self.now definition }
        ensures { MatchOption result ((p : ℕ) → NamesDefinition self.now p definition → ⊥)
            (λ p. NamesDefinition self.now p definition) }
    {
        self.threads.head(definition)
    }

    /// The places that name a definition, each once, in an order that stays while the uses do.
    pub fn iter(&self, definition: usize) -> UsesOf<'_>
        requires { IsDefined self.now definition }
        ensures uses { AreNamingPlaces self.now definition result }
        ensures order { result ≡ listed_of self.now definition }
        ensures fits { length result < 2 ^ 64 }
    {
        self.threads.know_members();
        let _nodes = self.threads.nodes();
        UsesOf {
            rest: self.threads.forward(definition),
        }
    }
}

/// Makes room for one definition more, and for its thread.
fn make_room_for_definition<K>(
    definitions: &mut Slab<Defined<K>>,
    threads: &mut Siblings,
) -> Result<(), AllocError>
    ensures slots { definitions.new.slots ≡ definitions.old.slots }
    ensures room { OnOk result (HasRoomFor definitions.new 1) }
    ensures within { OnOk result (definitions.new.vacant_key < length threads.new.lists) }
    ensures grows { length threads.old.lists ≤ length threads.new.lists }
    ensures lists { (c : ℕ) → list_at threads.new.lists c ≡ list_at threads.old.lists c }
{
    definitions.reserve(1)?;
    let definition = definitions.vacant_key();
    while threads.lists() <= definition {
        threads.add_list()?;
    }
    Ok(())
}

/// Makes room for one place more, and for its links.
fn make_room_for_place(places: &mut Slab<Spot>, threads: &mut Siblings) -> Result<(), AllocError>
    ensures slots { places.new.slots ≡ places.old.slots }
    ensures room { OnOk result (HasRoomFor places.new 1) }
    ensures within { OnOk result (places.new.vacant_key < threads.new.nodes) }
    ensures lists { threads.new.lists ≡ threads.old.lists }
{
    places.reserve(1)?;
    let place = places.vacant_key();
    while threads.nodes() <= place {
        threads.add_node()?;
    }
    Ok(())
}

/// Writes how many places name a definition.
fn set_uses<K>(definitions: &mut Slab<Defined<K>>, definition: usize, uses: usize)
    requires { ContainsKey definitions.old definition }
    ensures { definitions.new.slots ≡ slice_set definitions.old.slots definition
        (counted uses (definition_at definitions.old.slots definition)) }
{
    definitions[definition].uses = uses;
}

/// Puts a place into the thread of a definition.
fn put<K>(
    definitions: &mut Slab<Defined<K>>,
    threads: &mut Siblings,
    definition: usize,
    place: usize,
)
    requires sound { AreThreads definitions.old.slots threads.old.lists }
    requires definition { ContainsKey definitions.old definition }
    requires node { place < threads.old.nodes }
    requires unlinked { IsUnlinked threads.old.lists place }
    ensures sound { AreThreads definitions.new.slots threads.new.lists }
    ensures keys { keys_of definitions.new.slots ≡ keys_of definitions.old.slots }
    ensures here { has place (list_at threads.new.lists definition) ≡ true }
    ensures others { (p c : ℕ) → p ≢ place → has p (list_at threads.new.lists c) ≡ has p (list_at threads.old.lists c) }
    ensures nodes { threads.new.nodes ≡ threads.old.nodes }
{
    let uses = definitions[definition].uses;
    threads.insert_at_back(definition, place);
    threads.know_apart();
    threads.know_members();
    let _nodes = threads.nodes();
    set_uses(definitions, definition, uses + 1);
}

/// Takes a place out of the thread that it stands in.
fn take<K>(definitions: &mut Slab<Defined<K>>, threads: &mut Siblings, place: usize)
    requires sound { AreThreads definitions.old.slots threads.old.lists }
    requires linked { IsLinked threads.old.lists place }
    ensures sound { AreThreads definitions.new.slots threads.new.lists }
    ensures keys { keys_of definitions.new.slots ≡ keys_of definitions.old.slots }
    ensures unlinked { IsUnlinked threads.new.lists place }
    ensures others { (p c : ℕ) → p ≢ place → has p (list_at threads.new.lists c) ≡ has p (list_at threads.old.lists c) }
    ensures node { place < threads.new.nodes }
{
    threads.know_members();
    match threads.list(place) {
        None => unreachable!(),
        Some(definition) => {
            let uses = definitions[definition].uses;
            threads.unlink(place);
            threads.know_apart();
            set_uses(definitions, definition, uses - 1);
        }
    }
}

/// Moves all places of one thread to another.
fn merge<K>(definitions: &mut Slab<Defined<K>>, threads: &mut Siblings, from: usize, to: usize)
    requires sound { AreThreads definitions.old.slots threads.old.lists }
    requires from { ContainsKey definitions.old from }
    requires to { ContainsKey definitions.old to }
    requires differ { from ≢ to }
    ensures sound { AreThreads definitions.new.slots threads.new.lists }
    ensures keys { keys_of definitions.new.slots ≡ keys_of definitions.old.slots }
    ensures emptied { (p : ℕ) → has p (list_at threads.new.lists from) ≡ false }
    ensures joined { (p : ℕ)
        → has p (list_at threads.new.lists to) ≡
        (has p (list_at threads.old.lists to) || has p (list_at threads.old.lists from)) }
    ensures others { (p c : ℕ) → c ≢ from → c ≢ to
        → has p (list_at threads.new.lists c) ≡ has p (list_at threads.old.lists c) }
{
    let moved = definitions[from].uses;
    let kept = definitions[to].uses;
    threads.append(to, from);
    threads.know_apart();
    threads.know_members();
    let _nodes = threads.nodes();
    set_uses(definitions, from, 0);
    set_uses(definitions, to, kept + moved);
}
