//! The most precise facts of a problem: constant propagation along edges that are feasible.
//!
//! Source: Wegman and Zadeck, Constant propagation with conditional branches, 1991, by two lists: blocks that began to
//! run, and values of which less is known than those that look at them saw.
ghost use Rattle.std.specs.Prelude.{ℕ, ◌≡◌, true, length, IfOk, OnOk, Some, slice_get, []};
ghost use Rattle.opt_rows.specs.OperationRows.{Row};
ghost use Rattle.opt_rows.specs.Facts.{IsProblem, IsMostPreciseSolution, as_facts};
ghost use Rattle.opt_solvers.specs.FactsLaw.{OneMostPrecise};
ghost use Rattle.opt_rows.specs.FactsFound.{facts_of};
ghost use Rattle.opt_solvers.specs.FactsTables.{AreTables};
ghost use Rattle.opt_solvers.specs.FactsSolving.{IsFirstFound, IsInitialSolver, CanAskRows, IsSolving, IsWaiting, IsStep};

use crate::facts_rows::visit_block;
use crate::facts_seen::Seen;
use crate::facts_solver::Solver;
use crate::facts_tables::{Tables, tables_of};
use crate::facts_values::tell_value;
use opt_rows::{FactsProblem, Folding, Found, Known, Taken};
use std::alloc::{AllocError, Global};

/// What is known of a problem's blocks and values.
#[derive(Drop)]
pub struct Solution<K> {
    /// Of each block, whether it may run.
    pub runs: Vec<bool>,
    /// What is known of each value.
    pub known: Vec<Known<K>>,
}

/// What is found at first: the entry blocks of the root run, nothing is known of the values from outside, and nothing
/// else.
fn first_found<K: Copy + Eq>(alloc: Global, problem: &FactsProblem) -> Result<Found<K>, AllocError>
    requires problem { IsProblem problem.now }
    requires same { (x y : K) → K.eq x y ≡ true → x ≡ y }
    ensures { IfOk result (IsFirstFound problem.now) }
{
    let mut found = Found::new(alloc, problem.arguments.len(), problem.values)?;
    found.enter_all(problem, &problem.entries)?;
    found.give_up(&problem.outside)?;
    Ok(found)
}

/// A solver that has found what is found at first, and has not looked at any of it.
fn begin<K: Copy + Eq>(alloc: Global, problem: &FactsProblem) -> Result<Solver<K>, AllocError>
    requires problem { IsProblem problem.now }
    requires same { (x y : K) → K.eq x y ≡ true → x ≡ y }
    ensures { IfOk result (IsInitialSolver problem.now) }
{
    Ok(Solver {
        marks: vec![in alloc; None; problem.arguments.len()]?,
        taken: Taken::new(alloc, &problem.rows)?,
        seen: Seen::new(alloc, &problem.rows)?,
        found: first_found(alloc, problem)?,
    })
}

/// Looks at what one block that began to run, or one value of which less is known, asks. Says whether there was one.
fn step<F: Folding>(
    alloc: Global,
    problem: &FactsProblem,
    folding: &F,
    tables: &Tables,
    solver: &mut Solver<F::Constant>,
) -> Result<bool, AllocError>
    requires problem { IsProblem problem.now }
    requires tables { AreTables problem.now tables.now }
    requires asks { CanAskRows (F.can_ask folding.now) problem.now }
    requires solving { IsSolving (F.answers folding.now) problem.now solver.old [] }
    requires waiting { IsWaiting (F.answers folding.now) problem.now solver.old [] [] }
    ensures { IfOk result (IsStep (F.answers folding.now) problem.now solver.old solver.new) }
{
    if let Some(block) = solver.found.take_block() {
        visit_block(alloc, problem, folding, tables, block, solver)?;
        return Ok(true);
    }
    if let Some(value) = solver.found.take_value() {
        tell_value(alloc, problem, folding, tables, value, solver)?;
        return Ok(true);
    }
    Ok(false)
}

/// Looks at all that blocks and values ask, until there is none left.
fn run<F: Folding>(
    alloc: Global,
    problem: &FactsProblem,
    folding: &F,
    solver: &mut Solver<F::Constant>,
) -> Result<(), AllocError>
    requires problem { IsProblem problem.now }
    requires asks { CanAskRows (F.can_ask folding.now) problem.now }
    requires initial { IsInitialSolver problem.now solver.old }
    ensures { OnOk result (IsMostPreciseSolution (F.answers folding.now) problem.now (facts_of solver.new.found)) }
{
    let tables = tables_of(alloc, problem)?;
    'steps: while step(alloc, problem, folding, &tables, solver)? {}
    Ok(())
}

/// The facts that were found.
fn solution_of<K: Copy>(found: Found<K>) -> Solution<K>
    ensures { as_facts result.runs.items result.known.items ≡ facts_of found }
{
    let Found {
        runs,
        known,
        blocks: _,
        values: _,
    } = found;
    Solution { runs, known }
}

/// The most precise facts of a problem that are closed under what its operations do.
///
/// Each block is visited once, and each value falls twice at most. When a value falls, each place that reads it is
/// told, and each argument that it is forwarded to along an edge that is taken is lowered. An operation is asked again
/// where a place was told and none of its operands is undetermined. So the time is linear in the size of the problem,
/// beside what is asked: an operation once for each fall of an operand, and then all of its edges.
///
/// # Errors
/// There may be no memory.
pub fn most_precise<F: Folding>(
    alloc: Global,
    problem: &FactsProblem,
    folding: &F,
) -> Result<Solution<F::Constant>, AllocError>
    requires problem { IsProblem problem.now }
    requires asks { (i : ℕ) (r : Row) → slice_get problem.now.rows i ≡ Some r
        → F.can_ask folding.now i (length r.operands) }
    ensures { IfOk result (λ s. IsMostPreciseSolution (F.answers folding.now) problem.now
        (as_facts s.runs.items s.known.items)) }
{
    let mut solver = begin(alloc, problem)?;
    run(alloc, problem, folding, &mut solver)?;
    Ok(solution_of(solver.found))
}

/// There is one solution: most precise facts of one problem are the same, whatever is answered.
pub fn one_most_precise<K>()
    ensures { OneMostPrecise K }
{}
