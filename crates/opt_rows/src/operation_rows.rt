//! Operations in lists, one for each kind of thing.
ghost use Rattle.std.specs.Prelude.{◌≡◌, ◌<◌, ◌++◌, ◌∷◌, [], length, OnOk, OnErr, IfOk};
ghost use Rattle.opt_rows.specs.OperationRows.{no_row, row_numbered, edge_numbered};
ghost use Rattle.opt_rows.specs.OperationColumns.{buffered, GainRow, AreEmpty};

use crate::edge_list::EdgeList;
use crate::facts_problem::Role;
use crate::number_rows::{NumberRows, start_of};
use std::alloc::{AllocError, Global};
use std::marker::Model;

/// An operation that is put together, to be pushed. Its lists are used again for the next one.
#[derive(Drop)]
pub struct RowBuffer {
    /// The block that it is in.
    pub block: usize,
    /// What it is asked.
    pub role: Role,
    /// The values that it takes.
    pub operands: Vec<usize>,
    /// The values that it gives.
    pub results: Vec<usize>,
    /// Its edges, none where it is no branch.
    pub edges: EdgeList,
    /// The entry blocks of its regions.
    pub entries: Vec<usize>,
}

/// What is said of operations: in each list by all of them, one after the other.
#[derive(Drop)]
pub(crate) struct Columns {
    pub blocks: Vec<usize>,
    pub roles: Vec<Role>,
    pub operands: NumberRows,
    pub results: NumberRows,
    pub entries: NumberRows,
    /// Where the edges of each operation end.
    pub edge_ends: Vec<usize>,
    pub edges: EdgeList,
}

/// Operations, by their numbers. Their operands, results, edges and entries stand one after the other in one list each,
/// so that no operation asks for memory of its own.
#[derive(Drop)]
pub struct OperationRows {
    columns: Columns,
}

impl Model for OperationRows {
    ghost use Rattle.std.specs.Prelude.{List};
    ghost use Rattle.opt_rows.specs.OperationRows.{Row};
    ghost use Rattle.opt_rows.specs.OperationColumns.{rows_in, AreInStep};

    ghost Value = { List Row };

    ghost view = { λ r. rows_in r.columns };

    ghost invariant = { λ r. AreInStep r.columns };
}

impl RowBuffer {
    /// An operation of which nothing is said yet.
    ///
    /// # Errors
    /// There may be no memory.
    pub fn new(alloc: Global) -> Result<RowBuffer, AllocError>
        ensures { IfOk result (λ r. buffered r ≡ no_row) }
    {
        Ok(RowBuffer {
            block: 0,
            role: Role::Other,
            operands: Vec::new(alloc),
            results: Vec::new(alloc),
            edges: EdgeList::new(alloc)?,
            entries: Vec::new(alloc),
        })
    }
}

/// Puts what is said of an operation behind what is said of the others.
fn push_columns(columns: &mut Columns, row: &RowBuffer) -> Result<(), AllocError>
    ensures { OnOk result (GainRow columns.old columns.new (buffered row.now)) }
{
    columns.blocks.push(row.block)?;
    columns.roles.push(row.role)?;
    columns.operands.push_row(&row.operands)?;
    columns.results.push_row(&row.results)?;
    columns.entries.push_row(&row.entries)?;
    columns.edges.append(&row.edges)?;
    columns.edge_ends.push(columns.edges.len())?;
    Ok(())
}

/// Lets all that is said go.
fn clear_columns(columns: &mut Columns)
    ensures { AreEmpty columns.new }
{
    columns.blocks.clear();
    columns.roles.clear();
    columns.operands.clear();
    columns.results.clear();
    columns.entries.clear();
    columns.edge_ends.clear();
    columns.edges.clear();
}

impl OperationRows {
    /// No operation, with room for so many.
    ///
    /// # Errors
    /// There may be no memory.
    pub fn with_capacity(alloc: Global, count: usize) -> Result<OperationRows, AllocError>
        ensures { IfOk result (λ r. r ≡ []) }
    {
        Ok(OperationRows {
            columns: Columns {
                blocks: Vec::with_capacity(alloc, count)?,
                roles: Vec::with_capacity(alloc, count)?,
                operands: NumberRows::with_capacity(alloc, count, count)?,
                results: NumberRows::with_capacity(alloc, count, count)?,
                entries: NumberRows::with_capacity(alloc, count, 0)?,
                edge_ends: Vec::with_capacity(alloc, count)?,
                edges: EdgeList::new(alloc)?,
            },
        })
    }

    /// How many operations there are.
    pub fn len(&self) -> usize
        ensures { result ≡ length self.now }
    {
        self.columns.blocks.len()
    }

    /// The block that an operation is in.
    pub fn block(&self, number: usize) -> usize
        requires { number < length self.now }
        ensures { result ≡ (row_numbered self.now number).block }
    {
        self.columns.blocks[number]
    }

    /// What an operation is asked.
    pub fn role(&self, number: usize) -> Role
        requires { number < length self.now }
        ensures { result ≡ (row_numbered self.now number).role }
    {
        self.columns.roles[number]
    }

    /// The values that an operation takes.
    pub fn operands(&self, number: usize) -> &[usize]
        requires { number < length self.now }
        ensures { result.now ≡ (row_numbered self.now number).operands }
    {
        self.columns.operands.row(number)
    }

    /// The values that an operation gives.
    pub fn results(&self, number: usize) -> &[usize]
        requires { number < length self.now }
        ensures { result.now ≡ (row_numbered self.now number).results }
    {
        self.columns.results.row(number)
    }

    /// The entry blocks of the regions of an operation.
    pub fn entries(&self, number: usize) -> &[usize]
        requires { number < length self.now }
        ensures { result.now ≡ (row_numbered self.now number).entries }
    {
        self.columns.entries.row(number)
    }

    /// How many edges an operation has.
    pub fn edge_count(&self, number: usize) -> usize
        requires { number < length self.now }
        ensures { result ≡ length (row_numbered self.now number).edges }
    {
        let ends = self.columns.edge_ends.as_slice();
        ends[number] - start_of(ends, number)
    }

    /// The block that an edge of an operation leads to.
    pub fn target(&self, number: usize, edge: usize) -> usize
        requires number { number < length self.now }
        requires edge { edge < length (row_numbered self.now number).edges }
        ensures { result ≡ (edge_numbered (row_numbered self.now number).edges edge).target }
    {
        let start = start_of(&self.columns.edge_ends, number);
        self.columns.edges.target(start + edge)
    }

    /// Which operands are forwarded along an edge of an operation, by their indices, in the order of the arguments of
    /// the block that it leads to.
    pub fn forwards(&self, number: usize, edge: usize) -> &[usize]
        requires number { number < length self.now }
        requires edge { edge < length (row_numbered self.now number).edges }
        ensures { result.now ≡ (edge_numbered (row_numbered self.now number).edges edge).forwards }
    {
        let start = start_of(&self.columns.edge_ends, number);
        self.columns.edges.forwards(start + edge)
    }

    /// Puts an operation behind the others.
    ///
    /// # Errors
    /// There may be no memory. Then no operation is left.
    pub fn push(&mut self, row: &RowBuffer) -> Result<(), AllocError>
        ensures ok { OnOk result (self.new ≡ self.old ++ buffered row.now ∷ []) }
        ensures err { OnErr result (self.new ≡ []) }
    {
        let pushed = push_columns(&mut self.columns, row);
        if pushed.is_err() {
            clear_columns(&mut self.columns);
        }
        pushed
    }
}
