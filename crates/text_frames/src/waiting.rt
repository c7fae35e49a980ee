//! The operands and successors of operations, by the tokens that name them, until all values and blocks are made.
ghost use Rattle.std.specs.Prelude.{◌≡◌, ◌<◌, ◌++◌, ◌∷◌, [], length, IfOk, OnOk, Some, slice_get};
ghost use Rattle.text_frames.specs.Waiting.{Pending, HasRoom, start_from, tokens_end, labels_end};

use ir_program::{Operation, Ptr};
use std::alloc::{AllocError, Global};
use std::marker::Model;

/// An operation, and where its tokens and its labels end.
#[derive(Clone, Copy)]
struct WaitingRow {
    op: Ptr<Operation>,
    tokens_end: usize,
    labels_end: usize,
}

/// Operations that wait for their operands and successors, each with the tokens that name these. All tokens of operands stand
/// in one list, one operation's behind the other's, and all labels in another, so that none asks for memory of its own.
#[derive(Drop)]
pub struct WaitingOperands {
    rows: Vec<WaitingRow>,
    tokens: Vec<usize>,
    labels: Vec<usize>,
}

impl Model for WaitingOperands {
    ghost use Rattle.std.specs.Prelude.{◌-◌, length, vec_len, vec_capacity};
    ghost use Rattle.text_frames.specs.Waiting.{Waiting, waiting_from, AreRowEnds, tokens_end, labels_end};

    ghost Value = { Waiting };

    ghost view = { λ w. record {
      items = waiting_from 0 0 w.rows.items w.tokens.items w.labels.items;
      spare_rows = vec_capacity w.rows - vec_len w.rows;
      spare_tokens = vec_capacity w.tokens - vec_len w.tokens;
      spare_labels = vec_capacity w.labels - vec_len w.labels;
    } };

    ghost invariant = { λ w. AreRowEnds tokens_end 0 w.rows.items (length w.tokens.items)
        × AreRowEnds labels_end 0 w.rows.items (length w.labels.items) };
}

impl WaitingOperands {
    /// No operation waits. There is room for so many of them, for so many tokens, and for so many labels.
    ///
    /// # Errors
    /// There may be no memory for so much.
    pub fn with_capacity(
        alloc: Global,
        operations: usize,
        tokens: usize,
        labels: usize,
    ) -> Result<WaitingOperands, AllocError>
        ensures { IfOk result (λ w. w.items ≡ []) }
    {
        Ok(WaitingOperands {
            rows: Vec::with_capacity(alloc, operations)?,
            tokens: Vec::with_capacity(alloc, tokens)?,
            labels: Vec::with_capacity(alloc, labels)?,
        })
    }

    /// How many operations wait.
    pub fn len(&self) -> usize
        ensures { result ≡ length self.now.items }
    {
        self.rows.len()
    }

    /// The operation at an index.
    pub fn op(&self, index: usize) -> Ptr<Operation>
        requires { index < length self.now.items }
        ensures { (x : Pending) → slice_get self.now.items index ≡ Some x → result ≡ x.op }
    {
        self.rows[index].op
    }

    /// The tokens that name the operands of the operation at an index.
    pub fn tokens(&self, index: usize) -> &[usize]
        requires { index < length self.now.items }
        ensures { (x : Pending) → slice_get self.now.items index ≡ Some x → result.now ≡ x.tokens }
    {
        let start = tokens_start(&self.rows, index);
        &self.tokens[start..self.rows[index].tokens_end]
    }

    /// The tokens of the labels of the operation at an index.
    pub fn labels(&self, index: usize) -> &[usize]
        requires { index < length self.now.items }
        ensures { (x : Pending) → slice_get self.now.items index ≡ Some x → result.now ≡ x.labels }
    {
        let start = labels_start(&self.rows, index);
        &self.labels[start..self.rows[index].labels_end]
    }

    /// Makes room for one more operation with so many tokens and labels.
    ///
    /// # Errors
    /// There may be no memory.
    pub fn reserve(&mut self, tokens: usize, labels: usize) -> Result<(), AllocError>
        ensures items { self.new.items ≡ self.old.items }
        ensures room { OnOk result (HasRoom self.new tokens labels) }
    {
        self.rows.reserve(1)?;
        self.tokens.reserve(tokens)?;
        self.labels.reserve(labels)
    }

    /// Puts an operation behind the others. There is room for it.
    pub fn push_reserved(&mut self, op: Ptr<Operation>, tokens: &[usize], labels: &[usize])
        requires { HasRoom self.old (length tokens.now) (length labels.now) }
        ensures { self.new.items ≡ self.old.items ++ record { op = op; tokens = tokens.now; labels = labels.now } ∷ [] }
    {
        self.tokens.extend_from_slice(tokens).unwrap();
        self.labels.extend_from_slice(labels).unwrap();
        let tokens_end = self.tokens.len();
        let labels_end = self.labels.len();
        self.rows.push_reserved(WaitingRow {
            op,
            tokens_end,
            labels_end,
        });
    }
}

/// Where the tokens of the row at an index begin.
fn tokens_start(rows: &[WaitingRow], index: usize) -> usize
    requires { index < length rows.now }
    ensures { result ≡ start_from tokens_end 0 rows.now index }
{
    if index == 0 {
        0
    } else {
        rows[index - 1].tokens_end
    }
}

/// Where its labels begin.
fn labels_start(rows: &[WaitingRow], index: usize) -> usize
    requires { index < length rows.now }
    ensures { result ≡ start_from labels_end 0 rows.now index }
{
    if index == 0 {
        0
    } else {
        rows[index - 1].labels_end
    }
}
