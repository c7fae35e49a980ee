//! What operations have seen of their operands.
ghost use Rattle.std.specs.Prelude.{◌≡◌, None, IfOk, OnOk, length, replicate};
ghost use Rattle.opt_rows.specs.KnownFalls.{constant_of};
ghost use Rattle.opt_solvers.specs.FactsSeen.{is_found, one_unless, IsBlank, GainsOperands};

use opt_rows::{Known, OperationRows, start_of};
use std::alloc::{AllocError, Global};
use std::marker::Model;

/// What each operation has seen of its operands, in their order. It may lag behind what is known of their values.
///
/// The operands of all operations stand one after the other, so that no operation asks for memory of its own. The
/// constants stand apart, as an operation is asked by them, and a bool beside each says what else there is to know.
#[derive(Drop)]
pub struct Seen<K> {
    /// Where the operands of each operation end.
    ends: Vec<usize>,
    /// Of each operand, whether anything is seen of it: else it is undetermined.
    found: Vec<bool>,
    /// Which constant each operand is seen to be, if any.
    constants: Vec<Option<K>>,
    /// How many operands of each operation are undetermined.
    missing: Vec<usize>,
}

/// Where the operands of operations end, and that none of them has been seen yet.
#[derive(Drop)]
struct Blank {
    /// Where the operands of each operation end.
    ends: Vec<usize>,
    /// Of each operand, that nothing is seen of it.
    found: Vec<bool>,
    /// How many operands each operation has.
    missing: Vec<usize>,
}

impl<K> Model for Seen<K> {
    ghost use Rattle.std.specs.Prelude.{◌≡◌, List, length};
    ghost use Rattle.opt_rows.specs.declared.known.Known.{Known};
    ghost use Rattle.opt_rows.specs.Rows.{rows_from};
    ghost use Rattle.opt_solvers.specs.FactsSeen.{seen_facts, IsSeen};

    ghost Value = { List (List (Known K)) };

    ghost view = { λ s. rows_from 0 s.ends.items (seen_facts s.found.items s.constants.items) };

    ghost invariant = { λ s. (length s.found.items ≡ length s.constants.items)
        × IsSeen s.ends.items (seen_facts s.found.items s.constants.items) s.constants.items s.missing.items };
}

impl<K: Copy> Seen<K> {
    ghost use Rattle.std.specs.Prelude.{◌<◌, None, Some, length, map, slice_set, IfOk, MatchOption};
    ghost use Rattle.opt_rows.specs.declared.known.Known.TheVariants.{Undetermined};
    ghost use Rattle.opt_rows.specs.Known.{asked};
    ghost use Rattle.opt_rows.specs.Rows.{row_at};
    ghost use Rattle.opt_solvers.specs.FactsSeen.{unseen};

    /// Nothing is seen of any operand of these operations.
    ///
    /// # Errors
    /// There may be no memory.
    pub fn new(alloc: Global, rows: &OperationRows) -> Result<Seen<K>, AllocError>
        ensures { IfOk result (λ s. s ≡ map unseen rows.now) }
    {
        let mut blank = no_operands(alloc, rows)?;
        for number in 0..rows.len() {
            add_operands(&mut blank, rows.operands(number))?;
        }
        let constants = no_constants(alloc, blank.found.len())?;
        let Blank {
            ends,
            found,
            missing,
        } = blank;
        Ok(Seen {
            ends,
            found,
            constants,
            missing,
        })
    }

    /// An operation sees what is known of its operand with this index.
    pub fn see(&mut self, row: usize, index: usize, fact: Known<K>)
        requires row { row < length self.old }
        requires index { index < length (row_at self.old row) }
        ensures { self.new ≡ slice_set self.old row (slice_set (row_at self.old row) index fact) }
    {
        let place = start_of(&self.ends, row) + index;
        let found = has_found(fact);
        self.missing[row] = self.missing[row] - lacking(self.found[place]) + lacking(found);
        self.found[place] = found;
        self.constants[place] = constant(fact);
    }

    /// What an operation asks by what it has seen: nothing, while an operand is undetermined.
    pub fn ask(&self, row: usize) -> Option<&[Option<K>]>
        requires { row < length self.now }
        ensures { let asks = asked (row_at self.now row) in
            MatchOption result (asks ≡ None) (λ xs. asks ≡ Some xs.now) }
    {
        if self.missing[row] > 0 {
            return None;
        }
        let start = start_of(&self.ends, row);
        Some(&self.constants[start..self.ends[row]])
    }
}

/// No operation, with room for these.
fn no_operands(alloc: Global, rows: &OperationRows) -> Result<Blank, AllocError>
    ensures { IfOk result IsBlank }
{
    Ok(Blank {
        ends: Vec::with_capacity(alloc, rows.len())?,
        found: Vec::with_capacity(alloc, operand_count(rows))?,
        missing: Vec::with_capacity(alloc, rows.len())?,
    })
}

/// Puts an operation with these operands behind the others.
fn add_operands(blank: &mut Blank, operands: &[usize]) -> Result<(), AllocError>
    ensures { OnOk result (GainsOperands blank.old blank.new (length operands.now)) }
{
    let count = operands.len();
    blank.found.resize(blank.found.len() + count, false)?;
    blank.ends.push(blank.found.len())?;
    blank.missing.push(count)?;
    Ok(())
}

/// That so many operands are no constants.
fn no_constants<K: Copy>(alloc: Global, count: usize) -> Result<Vec<Option<K>>, AllocError>
    ensures { IfOk result (λ constants. constants.items ≡ replicate count None) }
{
    vec![in alloc; None; count]
}

/// How many operands there are, for the room that is asked for ahead.
pub(crate) fn operand_count(rows: &OperationRows) -> usize {
    let mut count: usize = 0;
    for number in 0..rows.len() {
        count = count.saturating_add(rows.operands(number).len());
    }
    count
}

/// The constant that is known, if there is one.
fn constant<K: Copy>(fact: Known<K>) -> Option<K>
    ensures { result ≡ constant_of fact }
{
    match fact {
        Known::One(constant) => Some(constant),
        _ => None,
    }
}

/// Whether anything is known.
fn has_found<K: Copy>(fact: Known<K>) -> bool
    ensures { result ≡ is_found fact }
{
    match fact {
        Known::Undetermined => false,
        _ => true,
    }
}

/// How many facts are missing of one operand.
fn lacking(found: bool) -> usize
    ensures { result ≡ one_unless found }
{
    if found { 0 } else { 1 }
}
