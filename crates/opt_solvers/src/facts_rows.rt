//! Operations, looked at as their blocks begin to run and as their operands become known.
ghost use Rattle.std.specs.Prelude.{ℕ, ◌≡◌, ◌<◌, true, [], length, OnOk, Contains};
ghost use Rattle.opt_rows.specs.declared.facts_problem.Role.TheVariants.{Folds, Branches};
ghost use Rattle.opt_rows.specs.OperationRows.{row_numbered};
ghost use Rattle.opt_rows.specs.Facts.{IsProblem};
ghost use Rattle.opt_rows.specs.FactsFound.{facts_of, Meets};
ghost use Rattle.opt_solvers.specs.FactsTables.{AreTables};
ghost use Rattle.opt_solvers.specs.FactsSolving.{CanAskRows, HasRole, RowRuns, FoldsBelow, AnyResults, Started, IsSolving, Refreshes, VisitsOperations};

use crate::facts_solver::Solver;
use crate::facts_tables::Tables;
use opt_rows::{FactsProblem, Folding, Found, Role, of_answer};
use opt_steps::{mark_targets, take_marked};
use std::alloc::{AllocError, Global};

/// Lowers the results of an operation by what it folds to.
fn lower_results<F: Folding>(
    alloc: Global,
    folding: &F,
    number: usize,
    results: &[usize],
    known: &[Option<F::Constant>],
    found: &mut Found<F::Constant>,
) -> Result<(), AllocError>
    requires asks { F.can_ask folding.now number (length known.now) }
    requires results { (v : ℕ) → Contains results.now v → v < length found.old.known.items }
    ensures { let below = FoldsBelow (F.answers folding.now) number results.now known.now in
        OnOk result (Meets below found.old found.new) }
{
    let folds = folding.fold(alloc, number, known)?;
    for index in 0..results.len().min(folds.len()) {
        found.lower(results[index], of_answer(folds[index]))?;
    }
    Ok(())
}

/// Lowers the results of an operation by what it folds to, if none of the operands that it has seen is undetermined.
fn fold_row<F: Folding>(
    alloc: Global,
    problem: &FactsProblem,
    folding: &F,
    number: usize,
    solver: &mut Solver<F::Constant>,
) -> Result<(), AllocError>
    requires problem { IsProblem problem.now }
    requires in_range { number < length problem.now.rows }
    requires role { HasRole problem.now number Folds }
    requires asks { CanAskRows (F.can_ask folding.now) problem.now }
    requires solving { IsSolving (F.answers folding.now) problem.now solver.old [] }
    requires running { RowRuns problem.now solver.old.found number }
    ensures { OnOk result (Refreshes (F.answers folding.now) problem.now solver.old solver.new number) }
{
    let results = problem.rows.results(number);
    if let Some(known) = solver.seen.ask(number) {
        lower_results(alloc, folding, number, results, known, &mut solver.found)?;
    }
    Ok(())
}

/// Takes the edges of a branch whose targets are feasible, if none of the operands that it has seen is undetermined.
fn test_edges<F: Folding>(
    problem: &FactsProblem,
    folding: &F,
    number: usize,
    solver: &mut Solver<F::Constant>,
) -> Result<(), AllocError>
    requires problem { IsProblem problem.now }
    requires in_range { number < length problem.now.rows }
    requires role { HasRole problem.now number Branches }
    requires asks { CanAskRows (F.can_ask folding.now) problem.now }
    requires solving { IsSolving (F.answers folding.now) problem.now solver.old [] }
    requires running { RowRuns problem.now solver.old.found number }
    ensures { OnOk result (Refreshes (F.answers folding.now) problem.now solver.old solver.new number) }
{
    if let Some(known) = solver.seen.ask(number) {
        mark_targets(problem, folding, number, known, &mut solver.marks);
        take_marked(
            problem,
            number,
            &solver.marks,
            &mut solver.taken,
            &mut solver.found,
        )?;
    }
    Ok(())
}

/// Looks at an operation by what it has seen of its operands.
///
/// # Errors
/// There may be no memory.
pub fn refresh_row<F: Folding>(
    alloc: Global,
    problem: &FactsProblem,
    folding: &F,
    number: usize,
    solver: &mut Solver<F::Constant>,
) -> Result<(), AllocError>
    requires problem { IsProblem problem.now }
    requires in_range { number < length problem.now.rows }
    requires asks { CanAskRows (F.can_ask folding.now) problem.now }
    requires solving { IsSolving (F.answers folding.now) problem.now solver.old [] }
    requires running { RowRuns problem.now solver.old.found number }
    ensures { OnOk result (Refreshes (F.answers folding.now) problem.now solver.old solver.new number) }
{
    match problem.rows.role(number) {
        Role::Folds => fold_row(alloc, problem, folding, number, solver),
        Role::Branches => test_edges(problem, folding, number, solver),
        Role::Other => Ok(()),
    }
}

/// Gives up the results of an operation unless it folds.
fn give_up_results<K: Copy + Eq>(
    role: Role,
    results: &[usize],
    found: &mut Found<K>,
) -> Result<(), AllocError>
    requires results { (v : ℕ) → Contains results.now v → v < length found.old.known.items }
    requires same { (x y : K) → K.eq x y ≡ true → x ≡ y }
    ensures { OnOk result (Meets (AnyResults results.now role) found.old found.new) }
{
    match role {
        Role::Folds => Ok(()),
        Role::Branches => found.give_up(results),
        Role::Other => found.give_up(results),
    }
}

/// Does what an operation in a block that runs asks whatever its operands are: its regions are entered, and its
/// results are given up unless it folds.
fn start_row<K: Copy + Eq>(
    problem: &FactsProblem,
    number: usize,
    found: &mut Found<K>,
) -> Result<(), AllocError>
    requires problem { IsProblem problem.now }
    requires in_range { number < length problem.now.rows }
    requires blocks { length found.old.runs.items ≡ length problem.now.arguments.items }
    requires values { length found.old.known.items ≡ problem.now.values }
    requires same { (x y : K) → K.eq x y ≡ true → x ≡ y }
    ensures { OnOk result (Meets (Started problem.now (row_numbered problem.now.rows number)) found.old found.new) }
{
    let results = problem.rows.results(number);
    give_up_results(problem.rows.role(number), results, found)?;
    found.enter_all(problem, problem.rows.entries(number))?;
    Ok(())
}

/// Looks at an operation of a block that began to run.
fn visit_row<F: Folding>(
    alloc: Global,
    problem: &FactsProblem,
    folding: &F,
    number: usize,
    solver: &mut Solver<F::Constant>,
) -> Result<(), AllocError>
    requires problem { IsProblem problem.now }
    requires in_range { number < length problem.now.rows }
    requires asks { CanAskRows (F.can_ask folding.now) problem.now }
    requires solving { IsSolving (F.answers folding.now) problem.now solver.old [] }
    requires running { RowRuns problem.now solver.old.found number }
    ensures { OnOk result (VisitsOperations (F.answers folding.now) problem.now solver.old solver.new
        (λ i r. i ≡ number)) }
{
    start_row(problem, number, &mut solver.found)?;
    refresh_row(alloc, problem, folding, number, solver)?;
    Ok(())
}

/// Looks at the operations of a block that began to run.
///
/// # Errors
/// There may be no memory.
pub fn visit_block<F: Folding>(
    alloc: Global,
    problem: &FactsProblem,
    folding: &F,
    tables: &Tables,
    block: usize,
    solver: &mut Solver<F::Constant>,
) -> Result<(), AllocError>
    requires problem { IsProblem problem.now }
    requires tables { AreTables problem.now tables.now }
    requires in_range { block < length problem.now.arguments.items }
    requires asks { CanAskRows (F.can_ask folding.now) problem.now }
    requires solving { IsSolving (F.answers folding.now) problem.now solver.old [] }
    requires running { (facts_of solver.old.found).runs block ≡ true }
    ensures { OnOk result (VisitsOperations (F.answers folding.now) problem.now solver.old solver.new
        (λ i r. r.block ≡ block)) }
{
    for number in tables.rows.row(block) {
        visit_row(alloc, problem, folding, number, solver)?;
    }
    Ok(())
}
