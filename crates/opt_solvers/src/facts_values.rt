//! Values of which less is known, told to those that look at them.
ghost use Rattle.std.specs.Prelude.{◌≡◌, ◌<◌, ◌∷◌, true, [], length, OnOk, Contains};
ghost use Rattle.opt_solvers.specs.declared.facts_tables.Slot.{Slot};
ghost use Rattle.opt_rows.specs.Facts.{IsProblem};
ghost use Rattle.opt_rows.specs.FactsFound.{Meets};
ghost use Rattle.opt_rows.specs.Rows.{row_at};
ghost use Rattle.opt_solvers.specs.FactsTables.{ReadsValue, AreTables};
ghost use Rattle.opt_solvers.specs.FactsSolving.{CanAskRows, SlotBelow, SlotsBelow, IsSolving, IsWaiting, Sees, HasToTell};

use crate::facts_rows::refresh_row;
use crate::facts_solver::Solver;
use crate::facts_tables::{Place, Slot, Tables};
use opt_rows::{FactsProblem, Folding, Found, Known, RowItems, Taken};
use std::alloc::{AllocError, Global};

/// Lowers an argument that a value is forwarded to, if the edge is taken.
fn forward_to<K: Copy + Eq>(
    slot: Slot,
    taken: &Taken,
    fact: Known<K>,
    found: &mut Found<K>,
) -> Result<(), AllocError>
    requires argument { slot.argument < length found.old.known.items }
    requires row { slot.row < length taken.now }
    requires edge { slot.edge < length (row_at taken.now slot.row) }
    requires same { (x y : K) → K.eq x y ≡ true → x ≡ y }
    ensures { OnOk result (Meets (SlotBelow taken.now slot fact) found.old found.new) }
{
    if taken.is_taken(slot.row, slot.edge) {
        found.lower(slot.argument, fact)?;
    }
    Ok(())
}

/// Lowers the arguments that a value is forwarded to along edges which are taken.
fn forward<K: Copy + Eq>(
    slots: RowItems<'_, Slot>,
    taken: &Taken,
    fact: Known<K>,
    found: &mut Found<K>,
) -> Result<(), AllocError>
    requires arguments { (x : Slot) → Contains slots x → x.argument < length found.old.known.items }
    requires rows { (x : Slot) → Contains slots x → x.row < length taken.now }
    requires edges { (x : Slot) → Contains slots x → x.edge < length (row_at taken.now x.row) }
    requires same { (x y : K) → K.eq x y ≡ true → x ≡ y }
    ensures { OnOk result (Meets (SlotsBelow taken.now slots.entry fact) found.old found.new) }
{
    for slot in slots {
        forward_to(slot, taken, fact, found)?;
    }
    Ok(())
}

/// Lets a place see what is known of the value that it reads, and looks at its operation, if its block runs.
fn see_place<F: Folding>(
    alloc: Global,
    problem: &FactsProblem,
    folding: &F,
    value: usize,
    place: Place,
    solver: &mut Solver<F::Constant>,
) -> Result<(), AllocError>
    requires problem { IsProblem problem.now }
    requires asks { CanAskRows (F.can_ask folding.now) problem.now }
    requires reads { ReadsValue problem.now.rows value place }
    requires solving { IsSolving (F.answers folding.now) problem.now solver.old [] }
    ensures { OnOk result (Sees (F.answers folding.now) problem.now solver.old solver.new value place) }
{
    let fact = solver.found.known[value];
    solver.seen.see(place.row, place.operand, fact);
    if solver.found.runs[problem.rows.block(place.row)] {
        refresh_row(alloc, problem, folding, place.row, solver)?;
    }
    Ok(())
}

/// Tells what is known of a value to the places that read it, each once, and lowers the arguments that it is forwarded
/// to, each alone.
///
/// # Errors
/// There may be no memory.
pub fn tell_value<F: Folding>(
    alloc: Global,
    problem: &FactsProblem,
    folding: &F,
    tables: &Tables,
    value: usize,
    solver: &mut Solver<F::Constant>,
) -> Result<(), AllocError>
    requires problem { IsProblem problem.now }
    requires tables { AreTables problem.now tables.now }
    requires in_range { value < problem.now.values }
    requires asks { CanAskRows (F.can_ask folding.now) problem.now }
    requires solving { IsSolving (F.answers folding.now) problem.now solver.old (value ∷ []) }
    requires waiting { let places = row_at tables.now.readers value in
        IsWaiting (F.answers folding.now) problem.now solver.old [] places }
    ensures { OnOk result (HasToTell (F.answers folding.now) problem.now solver.old.found solver.new []) }
{
    let fact = solver.found.known[value];
    forward(
        tables.slots.row(value),
        &solver.taken,
        fact,
        &mut solver.found,
    )?;
    for place in tables.readers.row(value) {
        see_place(alloc, problem, folding, value, place, solver)?;
    }
    Ok(())
}
