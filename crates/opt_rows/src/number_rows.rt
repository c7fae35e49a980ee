//! Rows of numbers in one list.
ghost use Rattle.std.specs.Prelude.{◌≡◌, ◌<◌, ◌^◌, ◌++◌, ◌∷◌, [], length, OnOk, OnErr, IfOk};
ghost use Rattle.opt_rows.specs.Rows.{row_at, start_from};

use std::alloc::{AllocError, Global};
use std::marker::Model;

/// Rows of numbers. They stand one after the other in one list, so that none asks for memory of its own.
#[derive(Drop)]
pub struct NumberRows {
    /// Where each row ends in the list.
    ends: Vec<usize>,
    numbers: Vec<usize>,
}

impl Model for NumberRows {
    ghost use Rattle.std.specs.Prelude.{ℕ, List, length};
    ghost use Rattle.opt_rows.specs.Rows.{rows_from, AreEnds};

    ghost Value = { List (List ℕ) };

    ghost view = { λ r. rows_from 0 r.ends.items r.numbers.items };

    ghost invariant = { λ r. AreEnds 0 r.ends.items (length r.numbers.items) };
}

impl NumberRows {
    /// No row, with room for so many, and for so many numbers in all of them.
    ///
    /// # Errors
    /// There may be no memory.
    pub fn with_capacity(
        alloc: Global,
        rows: usize,
        numbers: usize,
    ) -> Result<NumberRows, AllocError>
        ensures { IfOk result (λ r. r ≡ []) }
    {
        Ok(NumberRows {
            ends: Vec::with_capacity(alloc, rows)?,
            numbers: Vec::with_capacity(alloc, numbers)?,
        })
    }

    /// How many rows there are.
    pub fn len(&self) -> usize
        ensures len { result ≡ length self.now }
        // Each takes memory, so that a sum of two such numbers can be counted.
        ensures fits { result < 2 ^ 63 }
    {
        self.ends.len()
    }

    /// The row at an index.
    pub fn row(&self, index: usize) -> &[usize]
        requires { index < length self.now }
        ensures { result.now ≡ row_at self.now index }
    {
        let start = start_of(&self.ends, index);
        &self.numbers[start..self.ends[index]]
    }

    /// Puts a row behind the others.
    ///
    /// # Errors
    /// There may be no memory. Then the rows stay.
    pub fn push_row(&mut self, row: &[usize]) -> Result<(), AllocError>
        ensures ok { OnOk result (self.new ≡ self.old ++ row.now ∷ []) }
        ensures err { OnErr result (self.new ≡ self.old) }
    {
        self.ends.reserve(1)?;
        self.numbers.extend_from_slice(row)?;
        self.ends.push_reserved(self.numbers.len());
        Ok(())
    }

    /// Lets all rows go. Their memory stays for others.
    pub fn clear(&mut self)
        ensures { self.new ≡ [] }
    {
        self.ends.clear();
        self.numbers.clear();
    }
}

/// Where the row at an index begins, given where each row ends.
pub fn start_of(ends: &[usize], index: usize) -> usize
    requires { index < length ends.now }
    ensures { result ≡ start_from 0 ends.now index }
{
    if index == 0 { 0 } else { ends[index - 1] }
}
