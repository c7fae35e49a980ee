//! How many uses keep each item.
ghost use Rattle.std.specs.Prelude.{ℕ, ◌≡◌, ◌<◌, ◌≤◌, ◌+◌, ◌++◌, ◌^◌, IfOk, Contains, length, map, slice_index};
ghost use Rattle.digraph.specs.Counts.{count_of};
ghost use Rattle.opt_rows.specs.Rows.{row_at};
ghost use Rattle.opt_solvers.specs.DeadUses.{held, held_argument, first_uses, kept_by, CountsItems};

use opt_rows::{Argument, DeadProblem, NumberRows};
use std::alloc::{AllocError, Global};

/// A use that never goes, of an item that may not go.
fn held(may_go: bool) -> usize
    ensures { result ≡ held may_go }
{
    if may_go { 0 } else { 1 }
}

/// The uses that never go, of operations that may go or not, and then of arguments.
fn held_items(
    alloc: Global,
    may_go: &[bool],
    arguments: &[Argument],
) -> Result<Vec<usize>, AllocError>
    ensures { IfOk result (λ uses. uses.items ≡ map held may_go.now ++ map held_argument arguments.now) }
{
    let count = may_go.len().saturating_add(arguments.len());
    let mut uses = Vec::with_capacity(alloc, count)?;
    for operation in may_go {
        uses.push(held(*operation))?;
    }
    for argument in arguments {
        uses.push(held(argument.may_go))?;
    }
    Ok(uses)
}

/// The uses that never go, of all items.
fn first_uses(alloc: Global, problem: &DeadProblem) -> Result<Vec<usize>, AllocError>
    ensures { IfOk result (λ uses. uses.items ≡ first_uses problem.now) }
{
    held_items(alloc, problem.operations.may_go(), &problem.arguments)
}

/// One use more of each of some items.
fn count_items(uses: &mut Vec<usize>, items: &[usize])
    requires within { (x : ℕ) → Contains items.now x → x < length uses.old.items }
    requires fits { (x : ℕ) → slice_index uses.old.items x + count_of x items.now < 2 ^ 64 }
    ensures { CountsItems (λ x. count_of x items.now) uses.old.items uses.new.items }
{
    for item in items {
        uses[*item] += 1;
    }
}

/// One use more of each item for each row that it is in.
fn count_rows(uses: &mut Vec<usize>, rows: &NumberRows)
    requires within { (k x : ℕ) → Contains (row_at rows.now k) x → x < length uses.old.items }
    requires fits { (x : ℕ) → slice_index uses.old.items x + kept_by rows.now x < 2 ^ 64 }
    ensures { CountsItems (kept_by rows.now) uses.old.items uses.new.items }
{
    for index in 0..rows.len() {
        count_items(uses, rows.row(index));
    }
}

/// The number of uses of each item, one more for an item that may not go. `rows` are the items that each use keeps.
///
/// # Errors
/// There may be no memory.
pub fn count_uses(
    alloc: Global,
    problem: &DeadProblem,
    rows: &NumberRows,
) -> Result<Vec<usize>, AllocError>
    requires within { (k x : ℕ) → Contains (row_at rows.now k) x → x < length (first_uses problem.now) }
    requires fits { length rows.now + 1 < 2 ^ 64 }
    requires once { (k x : ℕ) → count_of x (row_at rows.now k) ≤ 1 }
    ensures { IfOk result (λ uses. CountsItems (kept_by rows.now) (first_uses problem.now) uses.items) }
{
    let mut uses = first_uses(alloc, problem)?;
    count_rows(&mut uses, rows);
    Ok(uses)
}
