//! What each item excuses once it goes: places, and what is inside it.
ghost use Rattle.std.specs.Prelude.{ℕ, ◌≡◌, ◌<◌, IfOk, OnOk, length};
ghost use Rattle.opt_rows.specs.Dead.{IsDeadProblem};
ghost use Rattle.opt_rows.specs.LinkedRows.{RowsGain};
ghost use Rattle.opt_solvers.specs.DeadRows.{AreForwardedPlaces, AreInner};

use opt_rows::{DeadProblem, LinkedRows};
use std::alloc::{AllocError, Global};

/// Puts a number into a row, if there is one.
fn note(rows: &mut LinkedRows<usize>, row: Option<usize>, number: usize) -> Result<(), AllocError>
    requires { (r : ℕ) → row ≡ Some r → r < length rows.old }
    ensures { OnOk result (RowsGain (λ r k. (row ≡ Some r) × (k ≡ number)) rows.old rows.new) }
{
    if let Some(row) = row {
        rows.put(row, number)?;
    }
    Ok(())
}

/// The numbers of the operands that are forwarded to each argument.
///
/// # Errors
/// There may be no memory.
pub fn forwarded_rows(alloc: Global, problem: &DeadProblem) -> Result<LinkedRows<usize>, AllocError>
    requires { IsDeadProblem problem.now }
    ensures { IfOk result (AreForwardedPlaces problem.now) }
{
    let count = problem.arguments.len();
    let mut rows = LinkedRows::with_capacity(alloc, count, count)?;
    for (number, operand) in problem.operations.all_operands().iter().enumerate() {
        note(&mut rows, operand.argument, number)?;
    }
    Ok(rows)
}

/// The operations that are directly in each operation.
///
/// # Errors
/// There may be no memory.
pub fn inner_rows(alloc: Global, problem: &DeadProblem) -> Result<LinkedRows<usize>, AllocError>
    requires { IsDeadProblem problem.now }
    ensures { IfOk result (AreInner problem.now) }
{
    let count = problem.operations.len();
    let mut rows = LinkedRows::with_capacity(alloc, count, count)?;
    for number in 0..count {
        note(&mut rows, problem.operations.around(number), number)?;
    }
    Ok(rows)
}
