//! Operations as constant propagation sees them, by numbers.
ghost use Rattle.std.specs.Prelude.{◌≡◌, ℕ, true, List, Option, IfOk, length};
ghost use Rattle.opt_rows.specs.Known.{KnowsMore};
ghost use Rattle.opt_rows.specs.Facts.{Answers};

use crate::operation_rows::OperationRows;
use std::alloc::{AllocError, Global};

/// What an operation is asked.
#[derive(Clone, Copy)]
pub enum Role {
    /// What its results fold to.
    Folds,
    /// Which of its edges are feasible.
    Branches,
    /// Nothing.
    Other,
}

/// All operations, blocks and values below a root.
#[derive(Drop)]
pub struct FactsProblem {
    /// The operations.
    pub rows: OperationRows,
    /// The arguments of each block.
    pub arguments: Vec<Vec<usize>>,
    /// How many values there are.
    pub values: usize,
    /// The entry blocks of the root's regions.
    pub entries: Vec<usize>,
    /// The values that come from outside.
    pub outside: Vec<usize>,
}

/// What operations fold to and which of their edges are feasible.
pub trait Folding {
    /// What a value can be known to be.
    type Constant: Copy + Eq;

    /// The answers.
    ghost answers: { Self → Answers Self.Constant };

    /// Of the operation with this number, with so many operands, it can be asked.
    ghost can_ask: { Self → ℕ → ℕ → Type 0 };

    /// What the results of the operation with this number fold to, by what is known of its operands: one answer for each
    /// result.
    ///
    /// # Errors
    /// There may be no memory.
    fn fold(
        &self,
        alloc: Global,
        row: usize,
        known: &[Option<Self::Constant>],
    ) -> Result<Vec<Option<Self::Constant>>, AllocError>
        requires { can_ask self.now row (length known.now) }
        ensures { IfOk result (λ folds. folds.items ≡ (answers self.now).fold row known.now) };

    /// Whether the edge at this index of the operation with this number is feasible, by what is known of its operands.
    fn is_feasible(&self, row: usize, known: &[Option<Self::Constant>], edge: usize) -> bool
        requires { can_ask self.now row (length known.now) }
        ensures { result ≡ (answers self.now).feasible row known.now edge };

    /// More known operands give the same folds and maybe more.
    ghost folds_more: { (s : Self) (row : ℕ) (xs ys : List (Option Self.Constant)) → KnowsMore xs ys
        → KnowsMore ((answers s).fold row xs) ((answers s).fold row ys) };

    /// More known operands make no more edges feasible.
    ghost feasible_less: { (s : Self) (row : ℕ) (xs ys : List (Option Self.Constant)) (edge : ℕ) → KnowsMore xs ys
        → (answers s).feasible row ys edge ≡ true → (answers s).feasible row xs edge ≡ true };

    /// Constants that compare equal are the same.
    ghost same: { (x y : Self.Constant) → Self.Constant.eq x y ≡ true → x ≡ y };
}
