//! Edges of a branch, taken as their targets become feasible.
ghost use Rattle.std.specs.Prelude.{ℕ, ◌≡◌, ◌<◌, true, length, OnOk, Contains};
ghost use Rattle.opt_rows.specs.OperationRows.{BranchEdge, edge_numbered, row_numbered};
ghost use Rattle.opt_rows.specs.Facts.{IsProblem};
ghost use Rattle.opt_rows.specs.Rows.{row_at};
ghost use Rattle.opt_steps.specs.FactsEdges.{MarksTargets, ForwardsAll, TakesEdge, TakesAllMarked};

use opt_rows::{FactsProblem, Folding, Found, Taken};
use std::alloc::AllocError;

/// Marks the targets of the feasible edges of an operation with its number. One feasible edge to a block is enough for
/// all edges to it, so edges are taken by their targets' marks. A mark from an earlier test is as good: what was
/// feasible stays feasible as less is known.
pub fn mark_targets<F: Folding>(
    problem: &FactsProblem,
    folding: &F,
    number: usize,
    known: &[Option<F::Constant>],
    marks: &mut Vec<Option<usize>>,
)
    requires in_range { number < length problem.now.rows }
    requires asks { F.can_ask folding.now number (length known.now) }
    requires targets { let edges = (row_numbered problem.now.rows number).edges in
        (e : BranchEdge) → Contains edges e → e.target < length marks.old.items }
    ensures { let marks_them = MarksTargets (F.answers folding.now) number (row_numbered problem.now.rows number) in
        marks_them known.now marks.old.items marks.new.items }
{
    for index in 0..problem.rows.edge_count(number) {
        if folding.is_feasible(number, known, index) {
            marks[problem.rows.target(number, index)] = Some(number);
        }
    }
}

/// Lowers the arguments of a block by what an edge forwards to them.
fn forward_all<K: Copy + Eq>(
    arguments: &[usize],
    forwards: &[usize],
    operands: &[usize],
    found: &mut Found<K>,
) -> Result<(), AllocError>
    requires arguments { (v : ℕ) → Contains arguments.now v → v < length found.old.known.items }
    requires forwards { (i : ℕ) → Contains forwards.now i → i < length operands.now }
    requires operands { (v : ℕ) → Contains operands.now v → v < length found.old.known.items }
    requires same { (x y : K) → K.eq x y ≡ true → x ≡ y }
    ensures { OnOk result (ForwardsAll arguments.now forwards.now operands.now found.old found.new) }
{
    for index in 0..arguments.len().min(forwards.len()) {
        let fact = found.known[operands[forwards[index]]];
        found.lower(arguments[index], fact)?;
    }
    Ok(())
}

/// Takes an edge: its target runs, and its arguments are lowered by what is forwarded to them.
fn take_edge<K: Copy + Eq>(
    problem: &FactsProblem,
    number: usize,
    edge: usize,
    found: &mut Found<K>,
) -> Result<(), AllocError>
    requires problem { IsProblem problem.now }
    requires in_range { number < length problem.now.rows }
    requires edge { edge < length (row_numbered problem.now.rows number).edges }
    requires blocks { length found.old.runs.items ≡ length problem.now.arguments.items }
    requires values { length found.old.known.items ≡ problem.now.values }
    requires same { (x y : K) → K.eq x y ≡ true → x ≡ y }
    ensures { let row = row_numbered problem.now.rows number in
        OnOk result (TakesEdge problem.now row (edge_numbered row.edges edge) found.old found.new) }
{
    let target = problem.rows.target(number, edge);
    found.run(target)?;
    forward_all(
        &problem.arguments[target],
        problem.rows.forwards(number, edge),
        problem.rows.operands(number),
        found,
    )?;
    Ok(())
}

/// Takes the edges of an operation that lead to blocks which are marked with its number, in time linear in their
/// number and in the arguments of the blocks that are newly led to.
///
/// # Errors
/// There may be no memory.
pub fn take_marked<K: Copy + Eq>(
    problem: &FactsProblem,
    number: usize,
    marks: &[Option<usize>],
    taken: &mut Taken,
    found: &mut Found<K>,
) -> Result<(), AllocError>
    requires problem { IsProblem problem.now }
    requires in_range { number < length problem.now.rows }
    requires marks { length marks.now ≡ length problem.now.arguments.items }
    requires taken { number < length taken.old }
    requires edges { length (row_at taken.old number) ≡ length (row_numbered problem.now.rows number).edges }
    requires blocks { length found.old.runs.items ≡ length problem.now.arguments.items }
    requires values { length found.old.known.items ≡ problem.now.values }
    requires same { (x y : K) → K.eq x y ≡ true → x ≡ y }
    ensures { let takes = TakesAllMarked problem.now number (row_numbered problem.now.rows number) marks.now in
        OnOk result (takes taken.old taken.new found.old found.new) }
{
    for index in 0..problem.rows.edge_count(number) {
        let target = problem.rows.target(number, index);
        if marks[target] == Some(number) && !taken.is_taken(number, index) {
            take_edge(problem, number, index, found)?;
            taken.take(number, index);
        }
    }
    Ok(())
}
