//! The items that a use keeps.
ghost use Rattle.std.specs.Prelude.{◌≡◌, ◌<◌, IfOk, OnOk, length, map, option_to_list, slice_get};
ghost use Rattle.opt_rows.specs.Dead.{IsDeadProblem};
ghost use Rattle.opt_rows.specs.DeadCandidates.{operands_of};
ghost use Rattle.opt_steps.specs.DeadPlaces.{maker, around_definer, around_user, IsOperationNumber, IsKnownDefiner, GoesOut, AreNumbersAbove, Crosses, KeepsRow, KeepMore, AreKeptRows, operand_place, kept_place, all_places};

use opt_rows::{DeadProblem, Definer, NumberRows};
use std::alloc::{AllocError, Global};

/// The number of the item that makes a value: that of the operation, or of the argument, which come behind all
/// operations.
fn maker(problem: &DeadProblem, definer: Definer) -> Option<usize>
    requires { IsKnownDefiner problem.now definer }
    ensures { result ≡ maker problem.now definer }
{
    match definer {
        Definer::Result(operation) => Some(operation),
        Definer::Argument(argument) => Some(problem.operations.len() + argument),
        Definer::Outside => None,
    }
}

/// The operation that the definition of a value is directly in.
fn around_definer(problem: &DeadProblem, definer: Definer) -> Option<usize>
    requires { IsKnownDefiner problem.now definer }
    ensures { result ≡ around_definer problem.now definer }
{
    match definer {
        Definer::Result(operation) => problem.operations.around(operation),
        Definer::Argument(argument) => problem.arguments[argument].around,
        Definer::Outside => None,
    }
}

/// The operation that a user is directly in.
fn around_user(problem: &DeadProblem, user: Option<usize>) -> Option<usize>
    requires { IsOperationNumber problem.now user }
    ensures { result ≡ around_user problem.now user }
{
    match user {
        None => None,
        Some(operation) => problem.operations.around(operation),
    }
}

/// Goes outwards to an operation whose number is not above the limit. Those around have smaller numbers.
fn outwards(problem: &DeadProblem, from: Option<usize>, limit: usize) -> Option<usize>
    requires problem { IsDeadProblem problem.now }
    requires from { IsOperationNumber problem.now from }
    ensures { GoesOut problem.now from limit result }
{
    let mut operation = from;
    while let Some(at) = operation {
        if at <= limit {
            return operation;
        }
        operation = problem.operations.around(at);
    }
    None
}

/// Adds what is around `inner`, itself too, and not around `outer`. Of two operations the one with the higher number
/// isn't around the other, so no depths are needed. Time: the steps from both to the first that is around both.
fn push_crossed(
    problem: &DeadProblem,
    kept: &mut Vec<usize>,
    inner: Option<usize>,
    outer: Option<usize>,
) -> Result<(), AllocError>
    requires problem { IsDeadProblem problem.now }
    requires inner { IsOperationNumber problem.now inner }
    requires outer { IsOperationNumber problem.now outer }
    requires behind { AreNumbersAbove inner kept.old.items }
    ensures { OnOk result (Crosses problem.now inner outer kept.old.items kept.new.items) }
{
    let mut definer = inner;
    let mut user = outer;
    while let Some(at) = definer {
        user = outwards(problem, user, at);
        if user == Some(at) {
            return Ok(());
        }
        kept.push(at)?;
        definer = problem.operations.around(at);
    }
    Ok(())
}

/// Begins a row anew, with an item, if there is one.
fn begin_row(row: &mut Vec<usize>, item: Option<usize>) -> Result<(), AllocError>
    ensures { OnOk result (row.new.items ≡ option_to_list item) }
{
    row.clear();
    if let Some(item) = item {
        row.push(item)?;
    }
    Ok(())
}

/// Makes a row of the items that a use keeps: the one that makes the value, and the operations around this that are
/// not around the user.
fn keep_items(
    problem: &DeadProblem,
    user: Option<usize>,
    definer: Definer,
    row: &mut Vec<usize>,
) -> Result<(), AllocError>
    requires problem { IsDeadProblem problem.now }
    requires user { IsOperationNumber problem.now user }
    requires definer { IsKnownDefiner problem.now definer }
    ensures { OnOk result (KeepsRow problem.now user definer row.new.items) }
{
    begin_row(row, maker(problem, definer))?;
    let inner = around_definer(problem, definer);
    let outer = around_user(problem, user);
    push_crossed(problem, row, inner, outer)?;
    Ok(())
}

/// Puts the items that the operands of an operation keep behind those of other uses. The row is used again for each.
fn keep_operands(
    problem: &DeadProblem,
    user: usize,
    row: &mut Vec<usize>,
    rows: &mut NumberRows,
) -> Result<(), AllocError>
    requires problem { IsDeadProblem problem.now }
    requires user { user < length problem.now.operations }
    ensures { let operands = operands_of (slice_get problem.now.operations user) in
        OnOk result (KeepMore problem.now (map (operand_place user) operands) rows.old rows.new) }
{
    for operand in problem.operations.operands(user) {
        keep_items(problem, Some(user), operand.definer, row)?;
        rows.push_row(row)?;
    }
    Ok(())
}

/// Puts the items that uses from outside or by the root keep behind those of other uses. The row is used again for
/// each.
fn keep_kept(
    problem: &DeadProblem,
    row: &mut Vec<usize>,
    rows: &mut NumberRows,
) -> Result<(), AllocError>
    requires { IsDeadProblem problem.now }
    ensures { OnOk result (KeepMore problem.now (map kept_place problem.now.kept.items) rows.old rows.new) }
{
    for definer in &problem.kept {
        keep_items(problem, None, *definer, row)?;
        rows.push_row(row)?;
    }
    Ok(())
}

/// The items that each use keeps: first those by all operations in turn, then those from outside and by the root.
///
/// # Errors
/// There may be no memory.
pub fn kept_rows(alloc: Global, problem: &DeadProblem) -> Result<NumberRows, AllocError>
    requires { IsDeadProblem problem.now }
    ensures { IfOk result (AreKeptRows problem.now (all_places problem.now)) }
{
    // Most uses keep one item.
    let operands = problem.operations.all_operands().len();
    let count = operands.saturating_add(problem.kept.len());
    let mut rows = NumberRows::with_capacity(alloc, count, count)?;
    let mut row = Vec::new(alloc);
    for user in 0..problem.operations.len() {
        keep_operands(problem, user, &mut row, &mut rows)?;
    }
    keep_kept(problem, &mut row, &mut rows)?;
    Ok(rows)
}
