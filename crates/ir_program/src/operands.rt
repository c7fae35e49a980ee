//! The operands of operations: the values that they take.
ghost use Rattle.std.specs.Prelude.{◌≡◌, ℕ, ◌++◌, ◌∷◌, [], ◌<◌, ◌≤◌, Some, IsNone, IsSome, MatchOption, OnOk, OnErr, length, slice_get};
ghost use Rattle.ir_program.specs.Program.{operation_at, IsLiveValue};
ghost use Rattle.ir_program.specs.Rows.{operands_at};
ghost use Rattle.ir_program.specs.Edits.{IsUnchanged, KeepsValues};
ghost use Rattle.ir_program.specs.RowEdits.{PushesOperand, InsertsOperand, RemovesOperand, ReplacesOperand, ChangesOperands};

use crate::{Operation, Program, Ptr, Value};
use ir_entities::{insert_place, push_place, remove_place};
use std::alloc::AllocError;

impl<O, B> Program<O, B> {
    /// Each operand is a value that stands at its definer.
    pub fn know_operands(&self)
        ensures { (p : _) (k : ℕ) (v : _) → slice_get (operands_at self.now p) k ≡ Some v → IsLiveValue self.now v }
    {
        self.values.know_named();
    }

    /// How many operands an operation has.
    pub fn operand_count(&self, op: Ptr<Operation>) -> usize
        requires { IsSome (operation_at self.now op) }
        ensures { result ≡ length (operands_at self.now op) }
    {
        self.forest.op(op.key).operands.len()
    }

    /// The operand at an index.
    pub fn operand(&self, op: Ptr<Operation>, index: usize) -> Value
        requires { index < length (operands_at self.now op) }
        ensures exact { slice_get (operands_at self.now op) index ≡ Some result }
        ensures live { IsLiveValue self.now result }
    {
        let place = self.forest.op(op.key).operands[index];
        self.values.key(self.values.definition(place))
    }

    /// Gives an operation one operand more, behind the others.
    ///
    /// # Errors
    /// Without memory nothing is changed.
    pub fn push_operand(&mut self, op: Ptr<Operation>, value: Value) -> Result<(), AllocError>
        requires operation { IsSome (operation_at self.old op) }
        requires value { IsLiveValue self.old value }
        ensures pushed { OnOk result (PushesOperand self.old self.new op value) }
        ensures err { OnErr result (IsUnchanged self.old self.new) }
        ensures values { KeepsValues self.old self.new }
    {
        let thread = self.thread(value);
        let record = self.forest.op_mut(op.key);
        push_place(&mut self.values, &mut record.operands, op.key.slot, thread)
    }

    /// Puts an operand at an index. Those that stood there and behind move back by one.
    ///
    /// # Errors
    /// Without memory nothing is changed.
    pub fn insert_operand(
        &mut self,
        op: Ptr<Operation>,
        index: usize,
        value: Value,
    ) -> Result<(), AllocError>
        requires operation { IsSome (operation_at self.old op) }
        requires within { index ≤ length (operands_at self.old op) }
        requires value { IsLiveValue self.old value }
        ensures inserted { OnOk result (InsertsOperand self.old self.new op index value) }
        ensures err { OnErr result (IsUnchanged self.old self.new) }
        ensures values { KeepsValues self.old self.new }
    {
        let thread = self.thread(value);
        let record = self.forest.op_mut(op.key);
        insert_place(
            &mut self.values,
            &mut record.operands,
            op.key.slot,
            index,
            thread,
        )
    }

    /// Takes away the operand at an index. Those behind it move up by one.
    pub fn remove_operand(&mut self, op: Ptr<Operation>, index: usize) -> Value
        requires { index < length (operands_at self.old op) }
        ensures value { slice_get (operands_at self.old op) index ≡ Some result }
        ensures removed { RemovesOperand self.old self.new op index }
        ensures values { KeepsValues self.old self.new }
    {
        let value = self.operand(op, index);
        let record = self.forest.op_mut(op.key);
        remove_place(&mut self.values, &mut record.operands, op.key.slot, index);
        value
    }

    /// Takes away the last operand, if there is one.
    pub fn pop_operand(&mut self, op: Ptr<Operation>) -> Option<Value>
        requires { IsSome (operation_at self.old op) }
        ensures value { MatchOption result (operands_at self.old op ≡ [])
            (λ v. operands_at self.old op ≡ operands_at self.new op ++ v ∷ []) }
        ensures popped { ChangesOperands self.old self.new op }
        ensures none { IsNone result → IsUnchanged self.old self.new }
        ensures values { KeepsValues self.old self.new }
    {
        let last = self.operand_count(op).checked_sub(1)?;
        Some(self.remove_operand(op, last))
    }

    /// Puts another value in place of the operand at an index.
    pub fn replace_operand(&mut self, op: Ptr<Operation>, index: usize, value: Value)
        requires within { index < length (operands_at self.old op) }
        requires value { IsLiveValue self.old value }
        ensures replaced { ReplacesOperand self.old self.new op index value }
        ensures values { KeepsValues self.old self.new }
    {
        let thread = self.thread(value);
        let place = self.forest.op(op.key).operands[index];
        self.values.rename(place, thread);
    }
}
