//! Which definition each name of a text means, and whether its root may have regions.
//!
//! All definitions of a scope count, wherever they stand in it, so first all names are collected, and then those that
//! were mentioned are looked up, one scope after the other.
ghost use Rattle.std.specs.Prelude.{◌≡◌, ◌↔◌, ◌<◌, ◌≤◌, ◌+◌, ℕ, List, Option, Some, option_map, IfOk, OnOk, MatchResult, true, false, length, slice_get, slice_set, slice_index};
ghost use Rattle.std.specs.List.Sorted.{IsPermutation, IsNonDecreasingBy};
ghost use Rattle.ir_scopes.specs.declared.sites.Site.{Site};
ghost use Rattle.ir_grammar.specs.Nesting.{OwnTokens};
ghost use Rattle.ir_tokens.specs.Faults.{IsNamed, IsFirstOf};
ghost use Rattle.ir_scopes.specs.Scopes.{is_marked, name_of, fault_again, fault_unresolved, fault_not_isolated, IsAgain, AreLacking, MeanNoted, AreNoted, names_at, IsNameOf, HasNameFault, HasSiteFault, EndsAmong, HaveDistinctTokens, SitesAreApart, NamesAreApart, AreLookedUp, IsResolved, IsScopeFault};
ghost use Rattle.ir_scopes.specs.Orders.{AreNumberedSites, IsScopeOrder, token_at, AreNamedAlike, HasPlaces, IsScopeWalk, number_passed, number_in, again_at, IsWithinScope, IsThrough};

use crate::sites::{Closing, NameSites, Site, Sites, sites_of};
use ir_grammar::grammar::Event;
use ir_tokens::Numbers;
use ir_tokens::faults::{Fault, FaultKind, first_of};
use ir_tokens::numbers::put;
use std::alloc::{AllocError, AllocFailed, Global};
use std::collections::BTreeSet;

/// What the names of a text mean.
#[derive(Drop)]
pub struct Resolution {
    /// For each token that names a value or a block, the number of its definition. Values and blocks have numbers of
    /// their own, each in the order of the text from 0 on.
    pub definitions: Numbers,
    /// How many definitions of values there are.
    pub count: usize,
    /// How many labels define blocks.
    pub labels: usize,
    pub counts: Counts,
}

/// How many parts of each kind a text has. Nothing is proved of these numbers: a reader asks for room ahead by them, and
/// nothing else may depend on them.
#[derive(Clone, Copy)]
pub struct Counts {
    pub operations: usize,
    pub regions: usize,
    /// The mentions of values.
    pub mentions: usize,
    /// The edges to blocks: each mentions one label.
    pub edges: usize,
}

/// Why a text's names aren't looked up.
#[derive(Clone, Copy, Debug, PartialEq, Eq)]
pub enum ScopeFault {
    Memory,
    Text(Fault),
}

impl From<AllocError> for ScopeFault {
    ghost use Rattle.std.specs.Prelude.{◌≡◌};
    ghost use Rattle.ir_scopes.specs.declared.scopes.ScopeFault.TheVariants.{Memory};

    ghost from_gives = { λ _ e. e ≡ Memory };

    fn from(_error: AllocError) -> ScopeFault {
        ScopeFault::Memory
    }
}

impl<T: Drop> From<AllocFailed<T>> for ScopeFault {
    ghost use Rattle.std.specs.Prelude.{◌≡◌};
    ghost use Rattle.ir_scopes.specs.declared.scopes.ScopeFault.TheVariants.{Memory};

    ghost from_gives = { λ _ e. e ≡ Memory };

    fn from(_error: AllocFailed<T>) -> ScopeFault {
        ScopeFault::Memory
    }
}

/// No place in an order.
const NOWHERE: usize = usize::MAX;

/// No scope is behind this one.
const LAST: usize = usize::MAX;

/// A walk over sites, one scope after the other.
///
/// It looks names up by a table with a place for each name, so no text makes this slow. The table serves all scopes: what
/// an earlier scope left there counts for nothing.
#[derive(Drop)]
struct Walk {
    /// The scope and the number of each site, in the order of the scopes, and in each scope in that of the text.
    order: Vec<(usize, usize)>,
    /// How many of these were passed.
    passed: usize,
    /// Where in the order each name was passed last.
    latest: Vec<usize>,
    /// That a site which was passed has the name of an earlier one of its scope.
    again: Option<Fault>,
}

/// The number of the token's name.
fn name_of(names: &Numbers, token: usize) -> usize
    ensures { result ≡ name_of names.now token }
{
    names.at(token)
}

fn fault_again(token: usize) -> Fault
    ensures { result ≡ fault_again token }
{
    Fault {
        kind: FaultKind::MultipleDefinitions,
        met: token,
        place: token,
    }
}

fn fault_unresolved(closing: Closing) -> Fault
    ensures { result ≡ fault_unresolved closing }
{
    Fault {
        kind: FaultKind::UnresolvedReference,
        met: closing.met,
        place: closing.place,
    }
}

/// A region of a root that isn't isolated from above opens at this token.
fn fault_not_isolated(token: usize) -> Fault
    ensures { result ≡ fault_not_isolated token }
{
    Fault {
        kind: FaultKind::TopLevelOpRegionNotIsolatedFromAbove,
        met: token,
        place: 0,
    }
}

/// The fault of the root of which the first region that mustn't be opens at this token, if one does.
fn root_fault(opened: Option<usize>) -> Option<Fault>
    ensures { result ≡ option_map fault_not_isolated opened }
{
    Some(fault_not_isolated(opened?))
}

/// The scope and the number of each site.
fn numbered(alloc: Global, sites: &[Site]) -> Result<Vec<(usize, usize)>, AllocError>
    ensures { IfOk result (λ v. AreNumberedSites sites.now v.items) }
{
    let mut all = Vec::with_capacity(alloc, sites.len())?;
    for (number, site) in sites.iter().enumerate() {
        all.push((site.scope, number))?;
    }
    Ok(all)
}

/// The scope and the number of each site, in the order of the scopes, and in each scope in that of the text.
fn scope_order(alloc: Global, sites: &[Site]) -> Result<Vec<(usize, usize)>, AllocError>
    ensures { IfOk result (λ v. IsScopeOrder sites.now v.items) }
{
    let mut order = numbered(alloc, sites)?;
    // In most texts they are in this order already. Then this is one walk over them.
    order.sort_unstable();
    Ok(order)
}

/// The greatest of the numbers of names at the sites.
fn greatest_name(names: &Numbers, sites: &[Site]) -> usize
    ensures { (j : ℕ) (s : Site) → slice_get sites.now j ≡ Some s → name_of names.now s.token ≤ result }
{
    let mut greatest = 0;
    for site in sites {
        greatest = greatest.max(name_of(names, site.token));
    }
    greatest
}

/// A table with a place for the name of each site, which says that no name was passed.
fn no_names(alloc: Global, names: &Numbers, sites: &[Site]) -> Result<Vec<usize>, AllocError>
    ensures fits { IfOk result (λ v. HasPlaces names.now sites.now v.items) }
    ensures none { IfOk result (λ v. (name : ℕ) → name < length v.items → slice_index v.items name ≡ NOWHERE) }
{
    match greatest_name(names, sites).checked_add(1) {
        Some(many) => vec![in alloc; NOWHERE; many],
        None => Err(AllocError),
    }
}

/// The token of the site with this number.
fn token_at(sites: &[Site], number: usize) -> usize
    ensures { result ≡ token_at sites.now number }
{
    match sites.get(number) {
        Some(site) => site.token,
        None => 0,
    }
}

impl Walk {
    /// A walk over these sites, of which none was passed.
    fn new(alloc: Global, names: &Numbers, sites: &[Site]) -> Result<Walk, AllocError>
        ensures walk { IfOk result (IsScopeWalk names.now sites.now) }
        ensures passed { IfOk result (λ w. w.passed ≡ 0) }
    {
        Ok(Walk {
            order: scope_order(alloc, sites)?,
            passed: 0,
            latest: no_names(alloc, names, sites)?,
            again: None,
        })
    }

    /// The number that a name was passed with last, if that was in this scope.
    fn number_of(&self, scope: usize, name: usize) -> Option<usize>
        ensures { result ≡ number_passed self.now scope name }
    {
        match self.latest.get(name) {
            Some(place) => self.number_at(*place, scope),
            None => None,
        }
    }

    /// The number of the site at this place of the order, if it is in this scope.
    fn number_at(&self, place: usize, scope: usize) -> Option<usize>
        ensures { result ≡ number_in scope (slice_get self.now.order.items place) }
    {
        match self.order.get(place) {
            Some((found, number)) => { if *found == scope { Some(*number) } else { None } }
            None => None,
        }
    }

    /// The fault at this token, if its name was passed in this scope.
    fn fault_at(&self, scope: usize, name: usize, token: usize) -> Option<Fault>
        ensures { result ≡ again_at (number_passed self.now scope name) token }
    {
        match self.number_of(scope, name) {
            Some(_) => Some(fault_again(token)),
            None => None,
        }
    }

    /// Passes a site with this scope, name and token.
    fn pass(&mut self, scope: usize, name: usize, token: usize)
        requires { self.old.passed < length self.old.order.items }
        ensures order { self.new.order.items ≡ self.old.order.items }
        ensures passed { self.new.passed ≡ self.old.passed + 1 }
        ensures latest { self.new.latest.items ≡ slice_set self.old.latest.items name self.old.passed }
        ensures again { IsFirstOf self.old.again (again_at (number_passed self.old scope name) token) self.new.again }
    {
        self.again = first_of(self.again, self.fault_at(scope, name, token));
        put(&mut self.latest, name, self.passed);
        self.passed += 1;
    }

    /// Passes the next site, if there is one in the scopes up to this one, and says whether it did.
    fn step(&mut self, names: &Numbers, sites: &[Site], last: usize) -> bool
        ensures walk { (all : List ℕ) → AreNamedAlike all names.now sites.now → IsScopeWalk all sites.now self.old
            → IsScopeWalk all sites.now self.new }
        ensures order { self.new.order.items ≡ self.old.order.items }
        ensures passed { result ≡ true → (self.new.passed ≡ self.old.passed + 1)
            × (self.new.passed ≤ length self.new.order.items) }
        ensures within { IsWithinScope self.old last → IsWithinScope self.new last }
        ensures through { result ≡ false → IsScopeOrder sites.now self.old.order.items → IsThrough self.new last }
        ensures all { result ≡ false → last ≡ LAST → length self.new.order.items ≤ self.new.passed }
    {
        let Some((scope, number)) = self.order.get(self.passed).copied() else {
            return false;
        };
        if last < scope {
            return false;
        }
        let token = token_at(sites, number);
        self.pass(scope, name_of(names, token), token);
        true
    }

    /// Passes all sites of the scopes up to this one.
    fn pass_through(&mut self, names: &Numbers, sites: &[Site], last: usize)
        ensures walk { (all : List ℕ) → AreNamedAlike all names.now sites.now → IsScopeWalk all sites.now self.old
            → IsScopeWalk all sites.now self.new }
        ensures order { self.new.order.items ≡ self.old.order.items }
        ensures within { IsWithinScope self.old last → IsWithinScope self.new last }
        ensures through { IsScopeOrder sites.now self.old.order.items → IsThrough self.new last }
        ensures all { last ≡ LAST → length self.new.order.items ≤ self.new.passed }
    {
        'steps: while self.step(names, sites, last) {}
    }
}

/// The first fault that one of these scopes ends.
fn lacking_fault(closings: &[Closing], lacking: &BTreeSet<usize>) -> Option<Fault>
    ensures { IsNamed (EndsAmong lacking.now closings.now) result }
{
    let mut fault = None;
    for closing in closings {
        if lacking.contains(&closing.scope) {
            fault = first_of(fault, Some(fault_unresolved(*closing)));
        }
    }
    fault
}

/// Writes the number of each definition to the place of its token.
fn note_definitions(places: &mut Numbers, definitions: &[Site]) -> Result<(), AllocError>
    ensures noted { OnOk result (HaveDistinctTokens definitions.now → (j : ℕ) (s : Site)
        → slice_get definitions.now j ≡ Some s → s.token < length places.old → slice_index places.new s.token ≡ j) }
    ensures many { OnOk result (length places.new ≡ length places.old) }
    ensures kept { OnOk result ((k : ℕ)
        → ((j : ℕ) (s : Site) → slice_get definitions.now j ≡ Some s → s.token ≡ k → ⊥)
        → slice_index places.new k ≡ slice_index places.old k) }
{
    for (number, site) in definitions.iter().enumerate() {
        places.set(site.token, number)?;
    }
    Ok(())
}

/// Writes the number of the definition that each mention means to the place of its token, where its name stands. Out
/// come the scopes in which a name is mentioned that has no definition there.
///
/// The walk goes over the definitions. It begins here, and passes those of a scope before the mentions in it are looked
/// up.
fn note_mentions(
    alloc: Global,
    places: &mut Numbers,
    definitions: &[Site],
    mentions: &[Site],
    walk: &mut Walk,
) -> Result<BTreeSet<usize>, AllocError>
    requires apart { SitesAreApart definitions.now mentions.now }
    requires order { IsNonDecreasingBy (λ m. m.scope) mentions.now }
    requires walk { IsScopeWalk places.old definitions.now walk.old }
    requires begins { walk.old.passed ≡ 0 }
    ensures walk { OnOk result (IsScopeWalk places.old definitions.now walk.new) }
    ensures lacking { IfOk result (AreLacking places.old definitions.now mentions.now) }
    ensures noted { OnOk result (MeanNoted places.old definitions.now mentions.now places.new) }
    ensures many { OnOk result (length places.new ≡ length places.old) }
    ensures kept { OnOk result ((k : ℕ) → ((i : ℕ) (m : Site) → slice_get mentions.now i ≡ Some m → m.token ≡ k → ⊥)
        → slice_index places.new k ≡ slice_index places.old k) }
{
    let mut lacking = BTreeSet::new(alloc);
    for site in mentions {
        walk.pass_through(places, definitions, site.scope);
        match walk.number_of(site.scope, name_of(places, site.token)) {
            Some(number) => places.set(site.token, number)?,
            None => {
                lacking.insert(site.scope)?;
            }
        }
    }
    Ok(lacking)
}

/// What is wrong with the names of one sort.
#[derive(Drop)]
struct NameFaults {
    /// That a name is defined twice.
    again: Option<Fault>,
    /// The scopes in which a name is mentioned that has no definition there.
    lacking: BTreeSet<usize>,
}

/// Brings sites into the order of their scopes. In most texts they are in it already. Then this is one walk over them.
fn sort_by_scope(sites: &mut [Site])
    ensures same { IsPermutation sites.old sites.new }
    ensures order { IsNonDecreasingBy (λ s. s.scope) sites.new }
{
    sites.sort_unstable_by_key(|site| site.scope);
}

/// Writes the number of the definition that each mention means to the place of its token, where its name stands. The
/// mentions come into the order of their scopes.
fn look_up_mentions(
    alloc: Global,
    places: &mut Numbers,
    definitions: &[Site],
    mentions: &mut [Site],
) -> Result<NameFaults, AllocError>
    requires { SitesAreApart definitions.now mentions.old }
    ensures again { IfOk result (λ a. IsNamed (IsAgain places.old definitions.now) a.again) }
    ensures lacking { IfOk result (λ a. AreLacking places.old definitions.now mentions.old a.lacking) }
    ensures noted { OnOk result (MeanNoted places.old definitions.now mentions.old places.new) }
    ensures many { OnOk result (length places.new ≡ length places.old) }
    ensures kept { OnOk result ((k : ℕ) → ((i : ℕ) (m : Site) → slice_get mentions.old i ≡ Some m → m.token ≡ k → ⊥)
        → slice_index places.new k ≡ slice_index places.old k) }
{
    let mut walk = Walk::new(alloc, places, definitions)?;
    sort_by_scope(mentions);
    let lacking = note_mentions(alloc, places, definitions, mentions, &mut walk)?;
    walk.pass_through(places, definitions, LAST);
    Ok(NameFaults {
        again: walk.again,
        lacking,
    })
}

/// Writes the number of the definition that each name of one sort means to the place of its token, where the name
/// stands, and gives the first fault of these names. The mentions come into the order of their scopes.
fn resolve_names(
    alloc: Global,
    places: &mut Numbers,
    sites: &mut NameSites,
) -> Result<Option<Fault>, AllocError>
    requires { SitesAreApart sites.old.definitions.items sites.old.mentions.items }
    ensures fault { IfOk result (IsNamed (HasNameFault places.old (names_at sites.old))) }
    ensures defined { OnOk result (AreNoted sites.old.definitions.items places.new) }
    ensures mentioned { OnOk result (MeanNoted places.old sites.old.definitions.items sites.old.mentions.items
        places.new) }
    ensures many { OnOk result (length places.new ≡ length places.old) }
    ensures kept { OnOk result ((k : ℕ) → ((s : Site) → IsNameOf (names_at sites.old) s → s.token ≡ k → ⊥)
        → slice_index places.new k ≡ slice_index places.old k) }
    ensures definitions { OnOk result (sites.new.definitions ≡ sites.old.definitions) }
{
    let faults = look_up_mentions(alloc, places, &sites.definitions, &mut sites.mentions)?;
    note_definitions(places, &sites.definitions)?;
    let unresolved = lacking_fault(&sites.closings, &faults.lacking);
    Ok(first_of(faults.again, unresolved))
}

/// Writes the number of the definition that each name means to the place of its token, where the name stands, and gives
/// the first fault of the names. The mentions come into the order of their scopes.
fn resolve(
    alloc: Global,
    places: &mut Numbers,
    sites: &mut Sites,
) -> Result<Option<Fault>, AllocError>
    requires { NamesAreApart (names_at sites.old.values) (names_at sites.old.labels) }
    ensures fault { IfOk result (IsNamed (HasSiteFault places.old sites.old)) }
    ensures values { OnOk result (AreLookedUp places.old (names_at sites.old.values) places.new) }
    ensures labels { OnOk result (AreLookedUp places.old (names_at sites.old.labels) places.new) }
    ensures many { OnOk result (length places.new ≡ length places.old) }
    ensures definitions { OnOk result ((sites.new.values.definitions ≡ sites.old.values.definitions)
        × (sites.new.labels.definitions ≡ sites.old.labels.definitions)) }
{
    let values = resolve_names(alloc, places, &mut sites.values)?;
    let labels = resolve_names(alloc, places, &mut sites.labels)?;
    Ok(first_of(values, labels))
}

fn counts_of(sites: &Sites) -> Counts {
    Counts {
        operations: sites.operations,
        regions: sites.regions,
        mentions: sites.values.mentions.len(),
        edges: sites.labels.mentions.len(),
    }
}

/// What the names of a text mean, of which reading did this, or its first fault: of its names, or that its root has a region
/// and isn't isolated from above.
///
/// `names` has a number for each token; two have the same where they are spelled alike. What they mean is written in
/// their places, so each name of a value or a block has a token of its own. `isolated` has for each kind of operations
/// whether it is isolated from above. The text may be unfinished: then the scopes that are still open have no fault
/// yet.
///
/// Takes time in proportion to the text where its scopes follow one another, and where one goes on behind another that
/// stands in it, that of a sort. The table has a place for each number up to the greatest of a definition's or a label's
/// name: larger numbers than tokens cost memory.
pub fn look_up(
    alloc: Global,
    names: Numbers,
    events: &[Event],
    isolated: &[bool],
) -> Result<Resolution, ScopeFault>
    requires { OwnTokens false events.now }
    ensures resolved { MatchResult result (IsResolved (is_marked isolated.now) names events.now)
        (IsScopeFault (is_marked isolated.now) names events.now) }
    ensures many { IfOk result (λ r. length r.definitions ≡ length names) }
{
    let mut sites = sites_of(alloc, events, isolated)?;
    let root = root_fault(sites.root_opened);
    let mut definitions = names;
    let unknown = resolve(alloc, &mut definitions, &mut sites)?;
    match first_of(unknown, root) {
        Some(fault) => Err(ScopeFault::Text(fault)),
        None => Ok(Resolution {
            definitions,
            count: sites.values.definitions.len(),
            labels: sites.labels.definitions.len(),
            counts: counts_of(&sites),
        }),
    }
}
