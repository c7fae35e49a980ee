//! The dead operations and arguments.
ghost use Rattle.std.specs.Prelude.{ℕ, ◌≡◌, ◌≤◌, ◌<◌, Contains, IfOk, OnOk, length, map, nat_eq};
ghost use Rattle.digraph.specs.Work.{Adds};
ghost use Rattle.opt_rows.specs.Dead.{IsDeadProblem};
ghost use Rattle.opt_solvers.specs.DeadItems.{AreDead, AreMarked};
ghost use Rattle.opt_steps.specs.DeadPlaces.{items};
ghost use Rattle.opt_steps.specs.DeadRelease.{AreCounts};
ghost use Rattle.opt_solvers.specs.DeadRows.{AreDeadTables, AreFirstCounts, LetsGo};

use crate::dead_rows::{forwarded_rows, inner_rows};
use crate::dead_uses::count_uses;
use digraph::Worklist;
use opt_rows::{DeadItems, DeadProblem, LinkedRows, NumberRows, RowItems};
use opt_steps::{Counts, excuse_between, excuse_row, kept_rows, started};
use std::alloc::{AllocError, Global};

/// What is known of uses and items before any item goes.
#[derive(Drop)]
struct DeadTables {
    /// The items that each use keeps.
    keeps: NumberRows,
    /// The uses that are forwarded to each argument.
    forwarded: LinkedRows<usize>,
    /// The operations that are directly in each operation.
    inner: LinkedRows<usize>,
}

/// Of each count, whether it is zero.
fn zeros(alloc: Global, counts: &[usize]) -> Result<Vec<bool>, AllocError>
    ensures { IfOk result (λ marks. marks.items ≡ map (λ n. nat_eq n 0) counts.now) }
{
    counts.iter().map(|count| *count == 0).collect(alloc)
}

/// The items without uses: operations come first.
fn unused(alloc: Global, operations: usize, uses: &[usize]) -> Result<DeadItems, AllocError>
    requires { operations ≤ length uses.now }
    ensures { IfOk result (AreMarked operations uses.now) }
{
    Ok(DeadItems {
        operations: zeros(alloc, &uses[..operations])?,
        arguments: zeros(alloc, &uses[operations..])?,
    })
}

/// Adds the operations of a row to those that have died.
fn add_inside(work: &mut Worklist, inside: RowItems<'_, usize>) -> Result<(), AllocError>
    requires { (i : ℕ) → Contains inside i → i < length work.old.marked.items }
    ensures { OnOk result (Adds work.old work.new inside.entry) }
{
    for operation in inside {
        work.add(operation)?;
    }
    Ok(())
}

/// Lets an item go: an operation with its places and with what is inside it, an argument with the places that are
/// forwarded to it. Items that nothing else keeps die.
fn let_go(
    problem: &DeadProblem,
    tables: &DeadTables,
    counts: &mut Counts,
    item: usize,
) -> Result<(), AllocError>
    requires problem { IsDeadProblem problem.now }
    requires tables { AreDeadTables problem.now tables.now }
    requires counts { AreCounts tables.now.keeps counts.old }
    requires len { length counts.old.uses.items ≡ items problem.now }
    requires item { item < items problem.now }
    ensures { OnOk result (LetsGo problem.now tables.now item counts.old counts.new) }
{
    let operations = problem.operations.len();
    if item < operations {
        let from = problem.operations.operands_before(item);
        let to = problem.operations.operands_before(item + 1);
        excuse_between(&tables.keeps, counts, from, to)?;
        add_inside(&mut counts.work, tables.inner.row(item))
    } else {
        let places = tables.forwarded.row(item - operations);
        excuse_row(&tables.keeps, counts, places)
    }
}

/// What is known of the uses and items of a problem.
fn tables_of(alloc: Global, problem: &DeadProblem) -> Result<DeadTables, AllocError>
    requires { IsDeadProblem problem.now }
    ensures { IfOk result (AreDeadTables problem.now) }
{
    Ok(DeadTables {
        keeps: kept_rows(alloc, problem)?,
        forwarded: forwarded_rows(alloc, problem)?,
        inner: inner_rows(alloc, problem)?,
    })
}

/// The counts before any item goes: nothing is excused, and what has no use has died.
fn first_counts(
    alloc: Global,
    problem: &DeadProblem,
    tables: &DeadTables,
) -> Result<Counts, AllocError>
    requires problem { IsDeadProblem problem.now }
    requires tables { AreDeadTables problem.now tables.now }
    ensures { IfOk result (AreFirstCounts problem.now tables.now) }
{
    let excused = vec![in alloc; false; tables.keeps.len()]?;
    let uses = count_uses(alloc, problem, &tables.keeps)?;
    let work = started(alloc, &uses)?;
    Ok(Counts {
        excused,
        uses,
        work,
    })
}

/// The least set of dead operations and arguments: those that nothing but uses keeps and that only the dead use.
///
/// Source: Cytron and others, Efficiently computing static single assignment form, 1991, the section on dead code. Here
/// the least set is taken, and an operation is also kept by uses from outside of what is defined inside it. Each use is
/// counted at the items that it keeps. An item that loses its last use dies; what is inside it goes, and each place of
/// what goes is excused, so that it keeps nothing any more. Time: linear in operations, arguments and operands, and in
/// the steps outwards from each definition and its user to what is around both.
///
/// # Errors
/// There may be no memory.
pub fn dead(alloc: Global, problem: &DeadProblem) -> Result<DeadItems, AllocError>
    requires { IsDeadProblem problem.now }
    ensures { IfOk result (AreDead problem.now) }
{
    let tables = tables_of(alloc, problem)?;
    let mut counts = first_counts(alloc, problem, &tables)?;
    while let Some(item) = counts.work.take() {
        let_go(problem, &tables, &mut counts, item)?;
    }
    unused(alloc, problem.operations.len(), &counts.uses)
}
