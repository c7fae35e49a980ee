//! Which edges are taken.
ghost use Rattle.opt_rows.specs.FactsTaken.{untaken};

use crate::number_rows::start_of;
use crate::operation_rows::OperationRows;
use std::alloc::{AllocError, Global};
use std::marker::Model;

/// Of each operation, which of its edges are taken: their targets are feasible.
///
/// The edges of all operations stand one after the other, so that no operation asks for memory of its own.
#[derive(Drop)]
pub struct Taken {
    /// Where the edges of each operation end.
    ends: Vec<usize>,
    /// Of each edge, whether it is taken.
    marks: Vec<bool>,
}

impl Model for Taken {
    ghost use Rattle.std.specs.Prelude.{List, Bool, length};
    ghost use Rattle.opt_rows.specs.Rows.{rows_from, AreEnds};

    ghost Value = { List (List Bool) };

    ghost view = { λ t. rows_from 0 t.ends.items t.marks.items };

    ghost invariant = { λ t. AreEnds 0 t.ends.items (length t.marks.items) };
}

impl Taken {
    ghost use Rattle.std.specs.Prelude.{◌≡◌, ◌<◌, Some, true, length, map, slice_get, slice_set, IfOk};
    ghost use Rattle.opt_rows.specs.Rows.{row_at};

    /// No edge of these operations is taken.
    ///
    /// # Errors
    /// There may be no memory.
    pub fn new(alloc: Global, rows: &OperationRows) -> Result<Taken, AllocError>
        ensures { IfOk result (λ t. t ≡ map untaken rows.now) }
    {
        let mut ends = Vec::with_capacity(alloc, rows.len())?;
        let mut marks = Vec::new(alloc);
        for number in 0..rows.len() {
            // A sum that doesn't fit is more than there is memory for.
            let end = marks.len().saturating_add(rows.edge_count(number));
            marks.resize(end, false)?;
            ends.push(marks.len())?;
        }
        Ok(Taken { ends, marks })
    }

    /// Whether the edge of an operation at this index is taken.
    pub fn is_taken(&self, row: usize, edge: usize) -> bool
        requires row { row < length self.now }
        requires edge { edge < length (row_at self.now row) }
        ensures { slice_get (row_at self.now row) edge ≡ Some result }
    {
        let place = start_of(&self.ends, row) + edge;
        self.marks[place]
    }

    /// Takes the edge of an operation at this index.
    pub fn take(&mut self, row: usize, edge: usize)
        requires row { row < length self.old }
        requires edge { edge < length (row_at self.old row) }
        ensures { self.new ≡ slice_set self.old row (slice_set (row_at self.old row) edge true) }
    {
        let place = start_of(&self.ends, row) + edge;
        self.marks[place] = true;
    }
}
