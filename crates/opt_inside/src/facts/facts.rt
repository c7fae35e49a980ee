//! The most precise facts of what is inside an operation.
ghost use Rattle.std.specs.Prelude.{◌≡◌, ◌<◌, ℕ, IfOk, IsSome, Some, length, slice_get, unwrap_or};
ghost use Rattle.ir_program.specs.Program.{operation_at};
ghost use Rattle.ir_trees.specs.Stands.{ProgramTree};
ghost use Rattle.opt_inside.specs.facts.ByNumber.{AreBestFacts, LeadsBelow};
ghost use Rattle.opt_inside.specs.facts.Solved.{IsSolutionOf};
ghost use Rattle.opt_inside.specs.Numbered.{NumbersInside, numbers_of};

use crate::facts::folding::ProgramFolding;
use crate::facts::problem::problem_of;
use crate::{Inside, know_occurrences};
use ir_program::{Operation, Program, Ptr};
use opt_dialect::OptDialect;
use opt_rows::Known;
use opt_solvers::{Solution, most_precise};
use std::alloc::{AllocError, Global};

/// What is known of the blocks and values inside an operation, by their numbers.
#[derive(Drop)]
pub struct KnownFacts<A> {
    /// Of each block, whether it is known to run.
    pub runs: Vec<bool>,
    /// What is known of each value.
    pub known: Vec<Known<A>>,
}

/// The item at an index, or the other one past the end.
pub(crate) fn item_or<T: Copy>(items: &[T], index: usize, other: T) -> T
    ensures { result ≡ unwrap_or (slice_get items.now index) other }
{
    match items.get(index) {
        Some(item) => *item,
        None => other,
    }
}

/// So many of the first items, with the other one for each that is missing.
fn first_items<T: Copy>(
    alloc: Global,
    items: &[T],
    count: usize,
    other: T,
) -> Result<Vec<T>, AllocError>
    ensures len { IfOk result (λ first. length first.items ≡ count) }
    ensures items { IfOk result (λ first. (i : ℕ) → i < count
        → slice_get first.items i ≡ Some (unwrap_or (slice_get items.now i) other)) }
{
    let mut first = Vec::with_capacity(alloc, count)?;
    for i in 0..count {
        first.push(item_or(items, i, other))?;
    }
    Ok(first)
}

/// The most precise facts of the problem of what is inside an operation.
fn solution_of<D: OptDialect>(
    alloc: Global,
    program: &Program<D::Operation, D::Block>,
    op: Ptr<Operation>,
    inside: &Inside,
) -> Result<Solution<D::Constant>, AllocError>
    requires live { IsSome (operation_at program.now op) }
    requires numbered { NumbersInside program.now op (numbers_of inside.now) }
    requires edges { LeadsBelow program.now op }
    ensures { IfOk result (IsSolutionOf D.meaning program.now op (numbers_of inside.now) inside.now.operations.keys) }
{
    program.know_lists();
    let problem = problem_of::<D>(alloc, program, op, inside)?;
    let folding = ProgramFolding::<D> {
        program,
        operations: inside.operations.as_slice(),
    };
    most_precise(alloc, &problem, &folding)
}

/// The most precise facts of what is inside an operation. What comes in besides it are the numbers of what is inside.
///
/// Source: Wegman and Zadeck, Constant propagation with conditional branches, 1991. The operations are numbered, which takes
/// time linear in them, their operands, results and edges, if a look-up in a hash table counts as one step, and
/// `opt_solvers::most_precise` solves the numbered problem.
///
/// # Errors
/// There may be no memory.
pub fn best_facts<D: OptDialect>(
    alloc: Global,
    program: &Program<D::Operation, D::Block>,
    op: Ptr<Operation>,
    inside: &Inside,
) -> Result<KnownFacts<D::Constant>, AllocError>
    requires live { IsSome (operation_at program.now op) }
    requires numbered { NumbersInside program.now op (numbers_of inside.now) }
    requires edges { LeadsBelow program.now op }
    ensures { IfOk result (λ f. (t : ProgramTree D.Operation D.Block)
        → AreBestFacts D.meaning program.now op (numbers_of inside.now) f.runs.items f.known.items t) }
{
    program.know_lists();
    know_occurrences(program, op);
    let solution = solution_of::<D>(alloc, program, op, inside)?;
    let runs = first_items(alloc, &solution.runs, inside.blocks.len(), false)?;
    let known = first_items(
        alloc,
        &solution.known,
        inside.values.len(),
        Known::Undetermined,
    )?;
    Ok(KnownFacts { runs, known })
}
