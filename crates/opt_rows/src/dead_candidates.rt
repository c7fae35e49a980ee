//! Operations as dead code elimination sees them, in lists of all of them.
ghost use Rattle.std.specs.Prelude.{◌≡◌, ◌≤◌, ◌<◌, ◌^◌, ◌++◌, ◌∷◌, [], length, map, slice_get, vec_capacity, OnOk, OnErr, IfOk};
ghost use Rattle.opt_rows.specs.DeadCandidates.{may_go_of, around_of, operands_of, all_operands, operands_before};

use crate::dead_problem::Operand;
use crate::number_rows::start_of;
use std::alloc::{AllocError, Global};
use std::marker::Model;

/// Operations, by their numbers. What they use stands in one list, so that none asks for memory of its own.
#[derive(Drop)]
pub struct Candidates {
    /// Of each, whether nothing but uses keeps it.
    may_go: Vec<bool>,
    /// Of each, whether it is in another, and none of the root's own.
    is_inside: Vec<bool>,
    /// The operation that each is in, and 0 for those of the root's own.
    around: Vec<usize>,
    /// Where the operands of each end in the list.
    ends: Vec<usize>,
    /// The operands of all.
    operands: Vec<Operand>,
}

impl Model for Candidates {
    ghost use Rattle.std.specs.Prelude.{List};
    ghost use Rattle.opt_rows.specs.Rows.{rows_from};
    ghost use Rattle.opt_rows.specs.DeadCandidates.{Candidate, candidates_of, arounds_of, AreColumns};

    ghost Value = { List Candidate };

    ghost view = { λ c. let arounds = arounds_of c.is_inside.items c.around.items in
        candidates_of c.may_go.items arounds (rows_from 0 c.ends.items c.operands.items) };

    ghost invariant = { λ c. AreColumns c.may_go.items c.is_inside.items c.around.items c.ends.items c.operands.items };
}

impl Candidates {
    /// No operation, with room for so many, and for so many operands of all of them.
    ///
    /// # Errors
    /// There may be no memory.
    pub fn with_capacity(
        alloc: Global,
        operations: usize,
        operands: usize,
    ) -> Result<Candidates, AllocError>
        ensures { IfOk result (λ c. c ≡ []) }
    {
        Ok(Candidates {
            may_go: Vec::with_capacity(alloc, operations)?,
            is_inside: Vec::with_capacity(alloc, operations)?,
            around: Vec::with_capacity(alloc, operations)?,
            ends: Vec::with_capacity(alloc, operations)?,
            operands: Vec::with_capacity(alloc, operands)?,
        })
    }

    /// How many operations there are.
    pub fn len(&self) -> usize
        ensures len { result ≡ length self.now }
        // Each takes memory, so that a sum of two such numbers can be counted.
        ensures fits { result < 2 ^ 63 }
    {
        self.may_go.len()
    }

    /// Of each operation, whether nothing but uses keeps it.
    pub fn may_go(&self) -> &[bool]
        ensures { result.now ≡ map may_go_of self.now }
    {
        &self.may_go
    }

    /// The operation that an operation is in, if that is none of the root's own.
    pub fn around(&self, number: usize) -> Option<usize>
        requires { number < length self.now }
        ensures { result ≡ around_of (slice_get self.now number) }
    {
        if self.is_inside[number] {
            Some(self.around[number])
        } else {
            None
        }
    }

    /// The operands of an operation.
    pub fn operands(&self, number: usize) -> &[Operand]
        requires { number < length self.now }
        ensures { result.now ≡ operands_of (slice_get self.now number) }
    {
        let start = start_of(&self.ends, number);
        &self.operands[start..self.ends[number]]
    }

    /// The operands of all operations, one after the other.
    pub fn all_operands(&self) -> &[Operand]
        ensures { result.now ≡ all_operands self.now }
    {
        &self.operands
    }

    /// How many operands the operations before one have.
    pub fn operands_before(&self, number: usize) -> usize
        requires { number ≤ length self.now }
        ensures { result ≡ operands_before self.now number }
    {
        if number == 0 {
            0
        } else {
            self.ends[number - 1]
        }
    }

    /// Puts an operation behind the others.
    ///
    /// # Errors
    /// There may be no memory. Then the operations stay.
    pub fn push(
        &mut self,
        may_go: bool,
        around: Option<usize>,
        operands: &[Operand],
    ) -> Result<(), AllocError>
        ensures ok { OnOk result
            (self.new ≡ self.old ++ record { may_go = may_go; around = around; operands = operands.now } ∷ []) }
        ensures err { OnErr result (self.new ≡ self.old) }
    {
        reserve_one(&mut self.may_go, &mut self.ends)?;
        reserve_one(&mut self.is_inside, &mut self.around)?;
        self.operands.extend_from_slice(operands)?;
        self.ends.push_reserved(self.operands.len());
        self.around.push_reserved(around.unwrap_or(0));
        self.is_inside.push_reserved(around.is_some());
        self.may_go.push_reserved(may_go);
        Ok(())
    }
}

/// Makes room for one more mark and one more number, and leaves the lists as they are.
fn reserve_one(marks: &mut Vec<bool>, numbers: &mut Vec<usize>) -> Result<(), AllocError>
    ensures marks { marks.new.items ≡ marks.old.items }
    ensures numbers { numbers.new.items ≡ numbers.old.items }
    ensures marks_room { OnOk result (length marks.new.items < vec_capacity marks.new) }
    ensures numbers_room { OnOk result (length numbers.new.items < vec_capacity numbers.new) }
{
    marks.reserve(1)?;
    numbers.reserve(1)?;
    Ok(())
}
