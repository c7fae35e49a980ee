//! Tables that say where a fact is looked at.
ghost use Rattle.std.specs.Prelude.{ℕ, ◌≡◌, ◌<◌, length, IfOk, OnOk, Contains};
ghost use Rattle.opt_rows.specs.OperationRows.{row_numbered};
ghost use Rattle.opt_rows.specs.Facts.{IsProblem};
ghost use Rattle.opt_rows.specs.LinkedRows.{RowsGain};
ghost use Rattle.opt_solvers.specs.FactsTables.{PlacesOf, SlotsOfEdge, SlotsOf, AreEmptyTables, AreTables, AddsRow};

use crate::facts_seen::operand_count;
use opt_rows::{FactsProblem, LinkedRows};
use std::alloc::{AllocError, Global};

/// An operand of an operation.
#[derive(Clone, Copy)]
pub struct Place {
    /// The operation.
    pub row: usize,
    /// The operand's index.
    pub operand: usize,
}

/// An argument that a value is forwarded to.
#[derive(Clone, Copy)]
pub struct Slot {
    /// The operation.
    pub row: usize,
    /// The index of its edge.
    pub edge: usize,
    /// The argument, by its number among the values.
    pub argument: usize,
}

/// Where facts are looked at.
#[derive(Drop)]
pub struct Tables {
    /// The operations of each block.
    pub rows: LinkedRows<usize>,
    /// The places that read each value.
    pub readers: LinkedRows<Place>,
    /// The arguments that each value is forwarded to.
    pub slots: LinkedRows<Slot>,
}

/// Puts an item into a row.
fn put<T: Copy>(table: &mut LinkedRows<T>, index: usize, item: T) -> Result<(), AllocError>
    requires { index < length table.old }
    ensures { OnOk result (RowsGain (λ n x. (n ≡ index) × (x ≡ item)) table.old table.new) }
{
    table.put(index, item)?;
    Ok(())
}

/// Puts the operands of an operation into the table of the places that read values.
fn put_places(
    readers: &mut LinkedRows<Place>,
    number: usize,
    operands: &[usize],
) -> Result<(), AllocError>
    requires { (v : ℕ) → Contains operands.now v → v < length readers.old }
    ensures { OnOk result (RowsGain (PlacesOf number operands.now) readers.old readers.new) }
{
    for (operand, value) in operands.iter().enumerate() {
        put(
            readers,
            *value,
            Place {
                row: number,
                operand,
            },
        )?;
    }
    Ok(())
}

/// Puts the arguments of a block into the table of those that values are forwarded to, by the operands that an edge
/// forwards to them.
fn put_forwards(
    slots: &mut LinkedRows<Slot>,
    row: usize,
    edge: usize,
    arguments: &[usize],
    forwards: &[usize],
    operands: &[usize],
) -> Result<(), AllocError>
    requires operands { (v : ℕ) → Contains operands.now v → v < length slots.old }
    requires forwards { (i : ℕ) → Contains forwards.now i → i < length operands.now }
    ensures { let such = SlotsOfEdge row edge arguments.now forwards.now operands.now in
        OnOk result (RowsGain such slots.old slots.new) }
{
    for index in 0..arguments.len().min(forwards.len()) {
        let argument = arguments[index];
        put(
            slots,
            operands[forwards[index]],
            Slot {
                row,
                edge,
                argument,
            },
        )?;
    }
    Ok(())
}

/// Puts what the edges of an operation forward into the table of the arguments that values are forwarded to.
fn put_edges(
    slots: &mut LinkedRows<Slot>,
    problem: &FactsProblem,
    number: usize,
) -> Result<(), AllocError>
    requires values { length slots.old ≡ problem.now.values }
    requires problem { IsProblem problem.now }
    requires in_range { number < length problem.now.rows }
    ensures { let row = row_numbered problem.now.rows number in
        let such = SlotsOf problem.now number row.edges row.operands in
        OnOk result (RowsGain such slots.old slots.new) }
{
    let operands = problem.rows.operands(number);
    for index in 0..problem.rows.edge_count(number) {
        let arguments = &problem.arguments[problem.rows.target(number, index)];
        let forwards = problem.rows.forwards(number, index);
        put_forwards(slots, number, index, arguments, forwards, operands)?;
    }
    Ok(())
}

/// Puts an operation into the tables.
fn put_row(tables: &mut Tables, problem: &FactsProblem, number: usize) -> Result<(), AllocError>
    requires blocks { length tables.old.rows ≡ length problem.now.arguments.items }
    requires readers { length tables.old.readers ≡ problem.now.values }
    requires slots { length tables.old.slots ≡ problem.now.values }
    requires problem { IsProblem problem.now }
    requires in_range { number < length problem.now.rows }
    ensures { OnOk result (AddsRow problem.now tables.old tables.new number (row_numbered problem.now.rows number)) }
{
    put(&mut tables.rows, problem.rows.block(number), number)?;
    put_places(&mut tables.readers, number, problem.rows.operands(number))?;
    put_edges(&mut tables.slots, problem, number)?;
    Ok(())
}

/// Tables with nothing in them.
fn empty_tables(alloc: Global, problem: &FactsProblem) -> Result<Tables, AllocError>
    ensures { IfOk result (AreEmptyTables problem.now) }
{
    Ok(Tables {
        rows: LinkedRows::with_capacity(alloc, problem.arguments.len(), problem.rows.len())?,
        readers: LinkedRows::with_capacity(alloc, problem.values, operand_count(&problem.rows))?,
        slots: LinkedRows::with_capacity(alloc, problem.values, 0)?,
    })
}

/// The tables of a problem.
///
/// # Errors
/// There may be no memory.
pub fn tables_of(alloc: Global, problem: &FactsProblem) -> Result<Tables, AllocError>
    requires { IsProblem problem.now }
    ensures { IfOk result (AreTables problem.now) }
{
    let mut tables = empty_tables(alloc, problem)?;
    for number in 0..problem.rows.len() {
        put_row(&mut tables, problem, number)?;
    }
    Ok(tables)
}
