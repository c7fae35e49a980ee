//! Uses that go, and items that no use keeps any more.
ghost use Rattle.std.specs.Prelude.{ℕ, ◌≡◌, ◌≤◌, ◌<◌, ◌-◌, Contains, IfOk, OnOk, length, slice_index, slice_set};
ghost use Rattle.digraph.specs.Work.{Adds};
ghost use Rattle.opt_steps.specs.DeadRelease.{newly, IsStarted, IsReleasable, Releases, AreCounts, ExcusesMore};

use digraph::Worklist;
use opt_rows::{NumberRows, RowItems};
use std::alloc::{AllocError, Global};

/// What is known while items die.
#[derive(Drop)]
pub struct Counts {
    /// Of each place, whether it keeps nothing any more.
    pub excused: Vec<bool>,
    /// How many places keep each item that aren't excused.
    pub uses: Vec<usize>,
    /// The items that have died, and those of them whose places aren't excused yet.
    pub work: Worklist,
}

/// An item without uses dies.
fn add_if_unused(work: &mut Worklist, uses: usize, item: usize) -> Result<(), AllocError>
    requires { item < length work.old.marked.items }
    ensures { OnOk result (Adds work.old work.new (newly uses item)) }
{
    if uses == 0 {
        work.add(item)?;
    }
    Ok(())
}

/// The items without uses.
///
/// # Errors
/// There may be no memory.
pub fn started(alloc: Global, uses: &[usize]) -> Result<Worklist, AllocError>
    ensures { IfOk result (λ work. IsStarted uses.now work) }
{
    let mut work = Worklist::new(alloc, uses.len())?;
    for item in 0..uses.len() {
        add_if_unused(&mut work, uses[item], item)?;
    }
    Ok(work)
}

/// One use less of an item. It dies, where that was the last.
fn release(uses: &mut Vec<usize>, work: &mut Worklist, item: usize) -> Result<(), AllocError>
    requires uses { item < length uses.old.items }
    requires work { item < length work.old.marked.items }
    requires some { 0 < slice_index uses.old.items item }
    ensures uses { uses.new.items ≡ slice_set uses.old.items item (slice_index uses.old.items item - 1) }
    ensures work { OnOk result (Adds work.old work.new (newly (slice_index uses.old.items item - 1) item)) }
{
    uses[item] -= 1;
    let left = uses[item];
    add_if_unused(work, left, item)
}

/// One use less of each of some items.
fn release_all(
    uses: &mut Vec<usize>,
    work: &mut Worklist,
    items: &[usize],
) -> Result<(), AllocError>
    requires { IsReleasable items.now uses.old.items work.old }
    ensures { OnOk result (Releases items.now uses.old.items uses.new.items work.old work.new) }
{
    for item in items {
        release(uses, work, *item)?;
    }
    Ok(())
}

/// A place keeps nothing any more.
fn excuse(keeps: &NumberRows, counts: &mut Counts, place: usize) -> Result<(), AllocError>
    requires counts { AreCounts keeps.now counts.old }
    requires place { place < length keeps.now }
    ensures { OnOk result (ExcusesMore keeps.now (λ k. k ≡ place) counts.old counts.new) }
{
    if !counts.excused[place] {
        counts.excused[place] = true;
        release_all(&mut counts.uses, &mut counts.work, keeps.row(place))?;
    }
    Ok(())
}

/// The places with the numbers from one on that are below another keep nothing any more. Items that nothing else keeps
/// die.
///
/// # Errors
/// There may be no memory.
pub fn excuse_between(
    keeps: &NumberRows,
    counts: &mut Counts,
    from: usize,
    to: usize,
) -> Result<(), AllocError>
    requires counts { AreCounts keeps.now counts.old }
    requires from { from ≤ to }
    requires to { to ≤ length keeps.now }
    ensures { OnOk result (ExcusesMore keeps.now (λ k. (from ≤ k) × (k < to)) counts.old counts.new) }
{
    for place in from..to {
        excuse(keeps, counts, place)?;
    }
    Ok(())
}

/// The places of a row keep nothing any more. Items that nothing else keeps die.
///
/// # Errors
/// There may be no memory.
pub fn excuse_row(
    keeps: &NumberRows,
    counts: &mut Counts,
    places: RowItems<'_, usize>,
) -> Result<(), AllocError>
    requires counts { AreCounts keeps.now counts.old }
    requires places { (k : ℕ) → Contains places k → k < length keeps.now }
    ensures { OnOk result (ExcusesMore keeps.now (λ k. Contains places.entry k) counts.old counts.new) }
{
    for place in places {
        excuse(keeps, counts, place)?;
    }
    Ok(())
}
